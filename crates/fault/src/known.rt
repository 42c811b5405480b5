// A line of any kind, walked as what its first bytes say that it is.
ghost use Rattle.std.specs.Prelude.{◌≡◌, true, ◌≤◌};
ghost use Rattle.paper.specs.Days.{real_day};
ghost use Rattle.paper.specs.Entries.{kind_of};
ghost use Rattle.paper.specs.Spells.{Context};
ghost use Rattle.why.specs.Walk.{why_as};
ghost use Rattle.fault.specs.line.Walks.{walk};
ghost use Rattle.fault.specs.known.Bears.{Bears};

use crate::line::Fault;
use fileline::seen::Seen;
use scan::kind::LineKind;
use sheet::Sheet;

// What is known where a line is reached: the account file's kind, the group's date and whether it has no payer of its own; the interval of the
// first line, and which numbers of account files came before.
#[derive(Clone, Copy)]
pub struct Bearing {
    pub kind: u64,
    pub date: u64,
    pub single: bool,
    pub from: u64,
    pub to: u64,
    pub seen: Seen,
}

// The line s, its end apart.
pub fn walk_line(s: &[u8], sh: Sheet, today: u64, x: Bearing) -> Result<(), Fault>
    requires today_value { real_day today ≡ true }
    requires itemdigits_bound { sh.itemdigits ≤ 19 }
    ensures { (c : Context) → Bears x c (kind_of s.now) → result ≡ walk (why_as sh today c s.now (kind_of s.now)) }
{
    match scan::kind::kind_of(s) {
        LineKind::Item => crate::item::walk_item(s, sh, today, x.kind, x.date, x.single),
        LineKind::Group => crate::line::walk_group(s, sh, today, x.kind),
        LineKind::File => crate::line::walk_file(s, sh, x.from, x.to, x.seen),
        LineKind::Head => crate::first::walk_first(s, sh),
        LineKind::GroupEnd => crate::closing::walk_close(s, sh.near, 50),
        LineKind::FileEnd => crate::closing::walk_close(s, sh.near, 51),
    }
}
