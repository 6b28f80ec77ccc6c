// Laws of binary64 that no function states: order and sign of sums and differences, and where a value lies in a span.
#![tactic(auto)]
