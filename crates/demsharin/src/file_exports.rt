// The calls on table files over lent bytes: the table or the file, then the room for the answer, which says
// how much is lent for a file, or for how many rows: what it has behind two numbers.
// Kept: the C interface: a function for each call, with numbers for its refusals.
ghost use Rattle.askfiles.specs.Calls as files;
ghost use Rattle.demsharin.specs.Exports.{Exported, file_room, row_places};

#[tactic(auto, using(crate::proofs::Exporting::number_is))]
pub fn demsharin_write_table(table: &[u8], out: &mut [u8]) -> u32
    ensures { Exported out.old (files.write_table table.now (file_room out.old)) result out.new }
{
    let room = out.len().saturating_sub(8);
    replies::number_of(askfiles::write_table(table, room, out))
}

#[tactic(auto, using(crate::proofs::Exporting::number_is))]
pub fn demsharin_read_table(file: &[u8], out: &mut [u8]) -> u32
    ensures { Exported out.old (files.read_table file.now (row_places out.old)) result out.new }
{
    let places = out.len().saturating_sub(8) / 176;
    replies::number_of(askfiles::read_table(file, places, out))
}

#[tactic(auto, using(crate::proofs::Exporting::number_is))]
pub fn demsharin_salvage_table(file: &[u8], out: &mut [u8]) -> u32
    ensures { Exported out.old (files.salvage_table file.now (row_places out.old)) result out.new }
{
    let places = out.len().saturating_sub(8) / 176;
    replies::number_of(askfiles::salvage_table(file, places, out))
}
