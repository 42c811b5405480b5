// A reader of lines: a struct that borrows a file and keeps the place where the next line starts. `line_of` goes with it to the line of a number.
#![tactic(auto)]

pub mod shown;

ghost use Rattle.std.specs.Prelude.{◌≡◌};
ghost use Rattle.reader.specs.Finding.{Finds, reader_at, behind, answer_at};
ghost use Rattle.reader.specs.Named.{told, line_answer};

#[derive(Drop)]
pub struct LineReader<'a> {
    pub file: &'a [u8],
    pub at: usize,
}

// A line of a file: where it starts, how many bytes it has without its end, and where the next one starts.
#[derive(Clone, Copy)]
pub struct Found {
    pub start: usize,
    pub len: usize,
    pub next: usize,
}

// The line of a number, as a C program is told: found 1, where it starts and how many bytes it has; or found 0.
#[repr(C)]
#[derive(Clone, Copy)]
pub struct AboLine {
    pub found: u64,
    pub at: u64,
    pub len: u64,
}

// No line has the number.
const NO_LINE: AboLine = AboLine {
    found: 0,
    at: 0,
    len: 0,
};

// The line that starts at a place of a file; none where the file has ended.
pub fn line_at(file: &[u8], at: usize) -> Option<Found>
    ensures { Finds file.now at result }
{
    if at < file.len() {
        let cut = scan::line::next_line(file, at);
        let stop = cut.stop;
        return Some(Found {
            start: at,
            len: stop - at,
            next: cut.next,
        });
    }
    None
}

impl<'a> LineReader<'a> {
    // A reader at the file's first line.
    pub fn new(file: &'a [u8]) -> LineReader<'a>
        ensures { result ≡ reader_at file.entry 0 }
    {
        LineReader { file, at: 0 }
    }

    // The line where the reader stands, and the reader moves on behind it; none where the file has ended, and the reader stays there.
    pub fn next_line(&mut self) -> Option<Found>
        ensures found { Finds self.old.file.now self.old.at result }
        ensures moved { self.new ≡ reader_at self.old.file (behind self.old.at result) }
    {
        let line = line_at(self.file, self.at)?;
        self.at = line.next;
        Some(line)
    }
}

// What stands at a place, as a C program is told: a line, or the file's end as an empty one.
fn named(found: Option<Found>, at: usize) -> AboLine
    ensures { told result ≡ answer_at found at }
{
    match found {
        Some(line) => AboLine {
            found: 1,
            at: line.start as u64,
            len: line.len as u64,
        },
        None => AboLine {
            found: 1,
            at: at as u64,
            len: 0,
        },
    }
}

// The line of a number. Lines count from 1; behind the last one stands the file's end, where a refusal may point, as an empty line.
pub fn line_of(file: &[u8], number: u64) -> AboLine
    ensures { told result ≡ line_answer number file.now }
{
    if number == 0 {
        return NO_LINE;
    }
    let mut reader = LineReader::new(file);
    for _k in 1..number {
        if reader.next_line().is_none() {
            return NO_LINE;
        }
    }
    named(reader.next_line(), reader.at)
}
