// One pass over a whole file, which only judges: the first broken rule, or the header and the counts of rows and warnings.
ghost use Rattle.std.specs.Prelude.{◌≡◌, true, List, ℕ, ◌-◌, ◌≤◌, Ok, length, take, drop};
ghost use Rattle.sheet.proofs.Laws.{Sane};
ghost use Rattle.paper.specs.Days.{real_day};
ghost use Rattle.paper.specs.Entries.{head_line, kind_of};
ghost use Rattle.scan.specs.line.Cutting.{Cuts};
ghost use Rattle.fileline.specs.seen.Bits.{Holds};
ghost use Rattle.tally.specs.Tally.{seeded};
ghost use Rattle.tally.specs.Short.{tally};
ghost use Rattle.judge.specs.accountfile.Resume.{Good};
ghost use Rattle.judge.specs.file.Answer.{Went, from_seen, NameIn, told, terms_of, Concluded, Kept, KeptEnd};

use crate::accountfile::{Left, file_step, group_step};
use crate::group::{Counts, Shelf};
use crate::refused::{Refused, lined};
use fileline::seen::Seen;
use firstline::Header;
use refusal::Refusal;
use scan::kind::LineKind;
use scan::line::Cut;
use sheet::Sheet;

// An accepted file: its header, if the sheet reads one, and the counts of rows and warnings. The header's name is the file's bytes 10 to 29.
#[derive(Clone, Copy)]
pub struct Accepted {
    pub head: Option<Header>,
    pub rows: u64,
    pub warnings: u64,
}

// An accepted file, and the numbers seen by its end.
#[derive(Clone, Copy)]
pub struct Ended {
    pub accepted: Accepted,
    pub seen: Seen,
}

// What holds for the whole file: the sheet, today, and the interval of the header.
#[derive(Clone, Copy)]
struct Terms {
    sheet: Sheet,
    today: u64,
    from: u64,
    to: u64,
}

// No account file yet.
const NOTHING: Counts = Counts {
    files: 0,
    items: 0,
    rows: 0,
    warnings: 0,
};

// ---- the two readers, which call each other; each call has one less of the budget, so that the stack stays small

// Account files, from the place `at` on.
#[cycle(account_files_groups)]
fn account_files(
    f: &[u8],
    terms: Terms,
    at: usize,
    line: u64,
    counts: Counts,
    seen: &mut [u64; 16],
    budget: u64,
) -> Result<Left, Refused>
    requires sane { Sane terms.sheet × (real_day terms.today ≡ true) }
    requires good { Good f.now (Ok (Left.File at line counts)) }
    ensures { Went terms.sheet terms.today terms.from terms.to f.now (Ok (Left.File at line counts)) budget seen.old seen.new result }
{
    if budget == 0 {
        return Ok(Left::File(at, line, counts));
    }
    match file_step(f, terms.sheet, at, line, terms.from, terms.to, counts, seen)? {
        Left::Group(next, number, opened, shelf) => groups(
            f,
            terms,
            next,
            number,
            opened,
            shelf,
            seen,
            budget - 1,
        ),
        left => Ok(left),
    }
}

// The groups of an account file, one after the other from the place `at` on, and the account files behind it.
#[cycle(account_files_groups)]
fn groups(
    f: &[u8],
    terms: Terms,
    at: usize,
    line: u64,
    counts: Counts,
    shelf: Shelf,
    seen: &mut [u64; 16],
    budget: u64,
) -> Result<Left, Refused>
    requires sane { Sane terms.sheet × (real_day terms.today ≡ true) }
    requires good { Good f.now (Ok (Left.Group at line counts shelf)) }
    ensures { Went terms.sheet terms.today terms.from terms.to f.now (Ok (Left.Group at line counts shelf)) budget seen.old seen.new result }
{
    if budget == 0 {
        return Ok(Left::Group(at, line, counts, shelf));
    }
    let mut at = at;
    let mut line = line;
    let mut counts = counts;
    let mut shelf = shelf;
    loop {
        match group_step(f, terms.sheet, terms.today, at, line, counts, shelf)? {
            Left::Group(next, number, more, held) => {
                at = next;
                line = number;
                counts = more;
                shelf = held;
            }
            Left::File(next, number, more) => {
                return account_files(f, terms, next, number, more, seen, budget - 1);
            }
            next => {
                return Ok(next);
            }
        }
    }
}

// ---- the file

// What holds for the whole file behind a header. Where the sheet reads none, the interval is not asked for.
fn terms_of(sheet: Sheet, today: u64, head: Option<Header>) -> Terms
    ensures { result ≡ terms_of sheet today head }
{
    match head {
        Some(header) => Terms {
            sheet,
            today,
            from: header.from,
            to: header.to,
        },
        None => Terms {
            sheet,
            today,
            from: 0,
            to: 0,
        },
    }
}

// Everything behind the first line, from `at` on, where the numbers of a set count as seen before.
fn behind_first(
    f: &[u8],
    sh: Sheet,
    today: u64,
    at: usize,
    head: Option<Header>,
    set: Seen,
) -> Result<Ended, Refused>
    requires sane { Sane sh × (real_day today ≡ true) }
    requires le_at { (2 ≤ at) × (at ≤ length f.now) }
    requires in_bounds { NameIn f.now head }
    ensures by_index { (u : List ℕ) → Holds set.words u → Concluded f.now (from_seen u sh today f.now at head) result }
    ensures kept { KeptEnd f.now result }
{
    let terms = terms_of(sh, today, head);
    let mut seen = set.words;
    let mut left = Left::File(at, 2, NOTHING);
    loop {
        match left {
            Left::File(at, line, counts) => {
                left = account_files(f, terms, at, line, counts, &mut seen, 16)?;
            }
            Left::Group(at, line, counts, shelf) => {
                left = groups(f, terms, at, line, counts, shelf, &mut seen, 16)?;
            }
            Left::Accepted(rows, warnings) => {
                return Ok(Ended {
                    accepted: Accepted {
                        head,
                        rows,
                        warnings,
                    },
                    seen: Seen { words: seen },
                });
            }
        }
    }
}

// The first line, which is known as one, and everything behind it, where the numbers of a set count as seen before.
pub fn from_first(f: &[u8], sh: Sheet, today: u64, cut: Cut, set: Seen) -> Result<Ended, Refused>
    requires sane { Sane sh × (real_day today ≡ true) }
    requires cuts { Cuts f.now 0 cut }
    requires f_value { kind_of (take (cut.stop - 0) (drop 0 f.now)) ≡ head_line }
    ensures by_index { (u : List ℕ) → Holds set.words u → Concluded f.now (seeded u sh today f.now) result }
    ensures kept { KeptEnd f.now result }
{
    let stop = cut.stop;
    let head = lined(firstline::first_line(&f[0..stop], sh), 1, 0, stop)?;
    behind_first(f, sh, today, cut.next, head, set)
}

// The answer of a whole file on the sheet sh.
pub fn judge_file(f: &[u8], sh: Sheet, today: u64) -> Result<Accepted, Refused>
    requires { Sane sh × (real_day today ≡ true) }
    ensures result_value { told f.now result ≡ tally sh today f.now }
    ensures kept { Kept f.now result }
{
    if f.len() == 0 {
        return Err(Refused {
            refusal: Refusal::BadOrder,
            line: 1,
            byte: 0,
        });
    }
    let cut = scan::line::next_line(f, 0);
    let stop = cut.stop;
    match scan::kind::kind_of(&f[0..stop]) {
        LineKind::Head => {
            let ended = from_first(f, sh, today, cut, Seen::none())?;
            Ok(ended.accepted)
        }
        _ => Err(Refused {
            refusal: Refusal::BadOrder,
            line: 1,
            byte: 0,
        }),
    }
}
