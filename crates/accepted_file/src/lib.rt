// A file that passed the checks, with its index: what the code behind the checks takes.
#![tactic(auto)]

ghost use Rattle.accepted_file.specs.AcceptedFile as Facts;
ghost use Rattle.accepted_file.specs.Props.{accepted-prop};

use views::IndexedFile;

// The tables of a file that was read and passed every check. Its index also holds the depth of each type, the constancy of each node and
// the last binding of each name, and what it remembers of constants is so.
#[derive(Clone, Copy)]
pub struct AcceptedFile<'a> {
    pub tables: IndexedFile<'a>,
    pub ghost accepted: { Facts.AcceptedFile tables.bytes.now tables.index.now } by { accepted-prop tables.bytes.now tables.index.now },
}
