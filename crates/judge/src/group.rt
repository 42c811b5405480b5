// The items of one group, up to the line that closes it.
ghost use Rattle.std.specs.Prelude.{◌≡◌, true, ℕ, ◌+◌, ◌-◌, ◌≤◌, length, take, drop};
ghost use Rattle.sheet.proofs.Laws.{Sane};
ghost use Rattle.paper.specs.Days.{real_day};
ghost use Rattle.paper.specs.Entries.{item_line, group_end, kind_of};
ghost use Rattle.paper.specs.Judge.{total_broken};
ghost use Rattle.paper.specs.Spells.{differs};
ghost use Rattle.judge.specs.group.Stands.{line_in, held_more, Banked, Turns, closed_as, LowItem, Begun, Ended};

use crate::refused::{Refused, lined};
use calendar::term::Banks;
use itemline::judge::Judged;
use refusal::Refusal;
use scan::kind::LineKind;
use sheet::Sheet;

// Of the whole file so far: account files, items, rows and warnings.
#[derive(Clone, Copy)]
pub struct Counts {
    pub files: u64,
    pub items: u64,
    pub rows: u64,
    pub warnings: u64,
}

// Of the open account file: items, and groups that are closed.
#[derive(Clone, Copy)]
pub struct Shelf {
    pub kind: u64,
    pub items: u64,
    pub groups: u64,
}

// Of the open group: whether it is single, its due date, its total with the line and byte where it stands, the sum and the count of its items.
#[derive(Clone, Copy)]
pub struct Open {
    pub single: bool,
    pub date: u64,
    pub total: u64,
    pub line: u64,
    pub byte: u64,
    pub sum: u64,
    pub count: u64,
}

// What judging keeps in a group: of the whole file, of the account file, of the group.
#[derive(Clone, Copy)]
pub struct Held {
    pub counts: Counts,
    pub shelf: Shelf,
    pub opened: Open,
}

// What one line of a group says: an item, or that the group ends.
#[derive(Clone, Copy)]
pub enum Turn {
    Item(Judged),
    Close,
}

// What stands behind a closed group: the place of the next line, its number, and the counts.
#[derive(Clone, Copy)]
pub struct GroupEnd {
    pub at: usize,
    pub line: u64,
    pub counts: Counts,
    pub shelf: Shelf,
}

// Is a group refused whose items sum up to this?
pub fn total_broken(strict: bool, total: u64, sum: u64) -> bool
    ensures { result ≡ total_broken strict total sum }
{
    if 99999999999999 < sum {
        return true;
    }
    if strict {
        return total != sum;
    }
    false
}

// How many warnings the total gives.
pub fn total_differs(total: u64, sum: u64) -> u64
    ensures { result ≡ differs total sum }
{
    if total == sum {
        return 0;
    }
    1
}

// An item's line, which is known as one. That there are too many comes before its fields.
fn item_turn(
    f: &[u8],
    sh: Sheet,
    banks: Banks,
    at: usize,
    stop: usize,
    line: u64,
    held: Held,
) -> Result<Turn, Refused>
    requires sane { Sane sh }
    requires at_le_stop { (at ≤ stop) × (stop ≤ length f.now) }
    requires f_value { kind_of (take (stop - at) (drop at f.now)) ≡ item_line }
    ensures { (today : ℕ) → Banked sh today banks held → Turns sh today line (line_in f.now at stop) held result }
{
    let inside = held.shelf.items;
    if 99999 <= inside {
        return Err(Refused {
            refusal: Refusal::TooMany,
            line,
            byte: at as u64,
        });
    }
    let limits = sh.limits();
    let items = held.counts.items;
    if limits.items <= items {
        return Err(Refused {
            refusal: Refusal::TooMany,
            line,
            byte: at as u64,
        });
    }
    let judged = itemline::judge::judge_item(&f[at..stop], sh, banks, held.opened.single);
    let item = lined(judged, line, at, stop)?;
    Ok(Turn::Item(item))
}

// A line that closes the group, which is known as one.
fn close_turn(
    f: &[u8],
    sh: Sheet,
    at: usize,
    stop: usize,
    line: u64,
    held: Held,
) -> Result<Turn, Refused>
    requires sane { Sane sh }
    requires at_le_stop { (at ≤ stop) × (stop ≤ length f.now) }
    requires f_value { kind_of (take (stop - at) (drop at f.now)) ≡ group_end }
    ensures { (today : ℕ) → Turns sh today line (line_in f.now at stop) held result }
{
    let count = held.opened.count;
    if count == 0 {
        return Err(Refused {
            refusal: Refusal::BadOrder,
            line,
            byte: at as u64,
        });
    }
    lined(closing::close_line(&f[at..stop], sh.near), line, at, stop)?;
    Ok(Turn::Close)
}

// One line of an open group: the bytes of the file from `at` to `stop`.
pub fn item_step(
    f: &[u8],
    sh: Sheet,
    banks: Banks,
    at: usize,
    stop: usize,
    line: u64,
    held: Held,
) -> Result<Turn, Refused>
    requires sane { Sane sh }
    requires at_le_stop { (at ≤ stop) × (stop ≤ length f.now) }
    ensures { (today : ℕ) → Banked sh today banks held → Turns sh today line (line_in f.now at stop) held result }
{
    match scan::kind::kind_of(&f[at..stop]) {
        LineKind::Item => item_turn(f, sh, banks, at, stop, line, held),
        LineKind::GroupEnd => close_turn(f, sh, at, stop, line, held),
        _ => Err(Refused {
            refusal: Refusal::BadOrder,
            line,
            byte: at as u64,
        }),
    }
}

// An item more, of that amount and with those warnings.
pub fn held_more(x: Held, amount: u64, warnings: u64) -> Held
    requires { LowItem (held_more x amount warnings) }
    ensures { result ≡ held_more x amount warnings }
{
    let items = x.counts.items + 1;
    let rows = x.counts.rows + 1;
    let warned = x.counts.warnings + warnings;
    let inside = x.shelf.items + 1;
    let sum = x.opened.sum + amount;
    let count = x.opened.count + 1;
    Held {
        counts: Counts {
            files: x.counts.files,
            items,
            rows,
            warnings: warned,
        },
        shelf: Shelf {
            kind: x.shelf.kind,
            items: inside,
            groups: x.shelf.groups,
        },
        opened: Open {
            single: x.opened.single,
            date: x.opened.date,
            total: x.opened.total,
            line: x.opened.line,
            byte: x.opened.byte,
            sum,
            count,
        },
    }
}

// The group's end: refused at its total, or what stands behind it.
pub fn close_group(strict: bool, at: usize, line: u64, held: Held) -> Result<GroupEnd, Refused>
    requires { LowItem held }
    ensures { result ≡ closed_as strict at line held }
{
    let total = held.opened.total;
    let sum = held.opened.sum;
    if total_broken(strict, total, sum) {
        return Err(Refused {
            refusal: Refusal::BadTotal,
            line: held.opened.line,
            byte: held.opened.byte,
        });
    }
    let warnings = held.counts.warnings + total_differs(total, sum);
    let groups = held.shelf.groups + 1;
    Ok(GroupEnd {
        at,
        line,
        counts: Counts {
            files: held.counts.files,
            items: held.counts.items,
            rows: held.counts.rows,
            warnings,
        },
        shelf: Shelf {
            kind: held.shelf.kind,
            items: held.shelf.items,
            groups,
        },
    })
}

// The lines of an open group, from `at` on, up to the one that closes it or is refused.
pub fn group_items(
    f: &[u8],
    sh: Sheet,
    today: u64,
    at: usize,
    line: u64,
    held: Held,
) -> Result<GroupEnd, Refused>
    requires sane { Sane sh × (real_day today ≡ true) }
    requires begun { Begun f.now at line held }
    ensures { Ended sh today f.now at line held result }
{
    let banks = calendar::term::banks_due(sh, today, held.shelf.kind, held.opened.date);
    let mut at = at;
    let mut line = line;
    let mut held = held;
    while at < f.len() {
        let cut = scan::line::next_line(f, at);
        let stop = cut.stop;
        match item_step(f, sh, banks, at, stop, line, held)? {
            Turn::Item(item) => {
                held = held_more(held, item.amount, item.warnings);
                at = cut.next;
                line += 1;
            }
            Turn::Close => {
                return close_group(sh.strict, cut.next, line + 1, held);
            }
        }
    }
    Err(Refused {
        refusal: Refusal::BadOrder,
        line,
        byte: at as u64,
    })
}
