// The lines of an open group, gone along at once up to the one that closes it, or where judging halts.
ghost use Rattle.std.specs.Prelude.{◌≡◌, true, List, ℕ};
ghost use Rattle.sheet.proofs.Laws.{Sane};
ghost use Rattle.paper.specs.Days.{real_day};
ghost use Rattle.judge.specs.group.Stands.{Begun};
ghost use Rattle.tracing.specs.group.Along.{Closing, Through};

use judge::group::{GroupEnd, Held, Turn};
use judge::refused::Refused;
use scan::line::Cut;
use sheet::Sheet;

// How far a pass comes along a group's lines: behind the one that closes it; to one where judging halts; or to the file's end.
#[derive(Clone, Copy)]
pub enum Far {
    Closed(GroupEnd),
    Halt {
        at: usize,
        cut: Cut,
        line: u64,
        held: Held,
    },
    Ended {
        at: usize,
        line: u64,
        held: Held,
    },
}

// What the line there, line `line`, leads to, which closes the group by its own bytes: the group's end may still be refused for its total.
fn ended(end: Result<GroupEnd, Refused>, at: usize, cut: Cut, line: u64, held: Held) -> Far
    ensures { (sh : Sheet) (today : ℕ) (f : List ℕ) → Sane sh → Closing sh today f at cut line held end → Through sh today f at line held result }
{
    match end {
        Ok(closed) => Far::Closed(closed),
        Err(_) => Far::Halt {
            at,
            cut,
            line,
            held,
        },
    }
}

// The lines of an open group, from `at` on.
pub fn along(f: &[u8], sh: Sheet, today: u64, at: usize, line: u64, held: Held) -> Far
    requires sane { Sane sh × (real_day today ≡ true) }
    requires begun { Begun f.now at line held }
    ensures { Through sh today f.now at line held result }
{
    let banks = calendar::term::banks_due(sh, today, held.shelf.kind, held.opened.date);
    let mut at = at;
    let mut line = line;
    let mut held = held;
    while at < f.len() {
        let cut = scan::line::next_line(f, at);
        match judge::group::item_step(f, sh, banks, at, cut.stop, line, held) {
            Ok(Turn::Item(item)) => {
                held = judge::group::held_more(held, item.amount, item.warnings);
                at = cut.next;
                line = line + 1;
            }
            Ok(Turn::Close) => {
                let end = judge::group::close_group(sh.strict, cut.next, line + 1, held);
                return ended(end, at, cut, line, held);
            }
            Err(_) => {
                return Far::Halt {
                    at,
                    cut,
                    line,
                    held,
                };
            }
        }
    }
    Far::Ended { at, line, held }
}
