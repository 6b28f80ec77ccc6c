// The calls on table files as C functions over lent bytes: the table or the file, then the room for the answer, which says
// how much is lent for a file, or for how many rows: what it has behind two numbers.
// Kept: the C interface: a function for each call, with numbers for its refusals.
ghost use Rattle.askfiles.specs.Calls as files;
ghost use Rattle.demsharin.specs.Exports.{Exported, file_room, row_places};

#[unsafe(no_mangle)]
pub extern "C" fn demsharin_write_table(table: &[u8], out: &mut [u8]) -> u32
    ensures { Exported out.old (files.write_table table.now (file_room out.old)) result out.new }
{
    demsharin::file_exports::demsharin_write_table(table, out)
}

#[unsafe(no_mangle)]
pub extern "C" fn demsharin_read_table(file: &[u8], out: &mut [u8]) -> u32
    ensures { Exported out.old (files.read_table file.now (row_places out.old)) result out.new }
{
    demsharin::file_exports::demsharin_read_table(file, out)
}

#[unsafe(no_mangle)]
pub extern "C" fn demsharin_salvage_table(file: &[u8], out: &mut [u8]) -> u32
    ensures { Exported out.old (files.salvage_table file.now (row_places out.old)) result out.new }
{
    demsharin::file_exports::demsharin_salvage_table(file, out)
}
