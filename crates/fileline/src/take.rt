// The line that begins an account file, judged before: its values are taken and nothing is tested.
ghost use Rattle.std.specs.Prelude.{◌≡◌, true};
ghost use Rattle.paper.specs.Entries.{file, plain};
ghost use Rattle.paper.specs.FileLine.{read_file};
ghost use Rattle.numeral.specs.placed.Said.{is_said};
ghost use Rattle.fileline.specs.take.Any.{any_number};

use sheet::Sheet;

// An account file's kind and number.
#[derive(Clone, Copy)]
pub struct File {
    pub kind: u64,
    pub number: u64,
}

// `1 KIND NUMBER BANK`: with four digits, six and four, each stands at its place.
pub fn take_file(s: &[u8], sh: Sheet) -> File
    requires { is_said (read_file sh any_number s.now) ≡ true }
    ensures { plain (file result.kind result.number) ≡ read_file sh any_number s.now }
{
    File {
        kind: numeral::placed::four(s, 2),
        number: numeral::placed::four(s, 7) * 100 + numeral::placed::two(s, 11),
    }
}
