// What an accepted file warns of, put line by line in file order. The file was judged before, so nothing is judged again.
ghost use Rattle.std.specs.Prelude.{◌≡◌, true, false, ◌≤◌};
ghost use Rattle.sheet.proofs.Laws.{Sane};
ghost use Rattle.paper.specs.Batch.{most14};
ghost use Rattle.paper.specs.Days.{real_day};
ghost use Rattle.paper.specs.Lines.{lines_from};
ghost use Rattle.paper.specs.Entries.{counted, group_line, kind_of};
ghost use Rattle.paper.specs.Terms.{day_here};
ghost use Rattle.paper.specs.GroupLine.{read_group};
ghost use Rattle.paper.specs.Rows.{accepted, single_behind};
ghost use Rattle.paper.specs.Judge.{judge};
ghost use Rattle.scan.specs.line.Cutting.{Cuts};
ghost use Rattle.numeral.specs.counted.Counted.{Counted};
ghost use Rattle.numeral.specs.placed.Said.{is_said};
ghost use Rattle.why.specs.Finding.{accepts};
ghost use Rattle.why.specs.Warned.{ahead, warned_in};
ghost use Rattle.listing.specs.Listed.{listed};
ghost use Rattle.listing.specs.group.Warned.{group_warned, cut as bytes_in, line_in};
ghost use Rattle.listing.specs.group.Ahead.{ItemsSaid};
ghost use Rattle.tracing.specs.warnings.Passing.{Passes, Puts};

use listing::Telling;
use scan::kind::LineKind;
use scan::line::Cut;
use sheet::Sheet;

// What a line leaves: where the next warning goes, the kind of the account file that is open, and whether the group that is open is single.
#[derive(Clone, Copy)]
pub struct Step {
    pub next: usize,
    pub kind: u64,
    pub single: bool,
}

// Is the group that the line s begins single?
fn is_single(s: &[u8], sh: Sheet, today: u64) -> bool
    requires { is_said (read_group sh today (day_here sh 0) s.now) ≡ true }
    ensures { result ≡ single_behind false (counted (read_group sh today (day_here sh 0) s.now)) }
{
    let g = groupline::take::take_group(s, sh, today);
    account::is_nobody(g.prefix, g.base)
}

// The line of a group, in an account file of that kind: the sum of its items is looked for ahead.
fn put_group(
    out: &mut [u8],
    to: usize,
    t: Telling,
    f: &[u8],
    at: usize,
    cut: Cut,
    line: u64,
    kind: u64,
    single: bool,
) -> usize
    requires sane { Sane t.sheet × (real_day t.today ≡ true) }
    requires cuts { Cuts f.now at cut }
    requires stop_value { kind_of (bytes_in f.now at cut.stop) ≡ group_line }
    requires items_said { ItemsSaid t.sheet single (lines_from f.now cut.next) }
    requires next_bound { ahead t.sheet t.today (accepted single) (lines_from f.now cut.next) ≤ most14 }
    ensures { Counted out.old to (listed t f.now (group_warned t.sheet t.today line (line_in f.now at cut.stop) (day_here t.sheet kind) (ahead t.sheet t.today (accepted single) (lines_from f.now cut.next)))) out.new result }
{
    let here = calendar::term::day_here(t.sheet, kind);
    let exact = listing::group::sum_ahead(f, t.sheet, cut.next, single);
    listing::group::put_group(out, to, t, f, line, at, cut.stop, here, exact)
}

// Line `line`, to which the pass came with x.
fn put_line(out: &mut [u8], t: Telling, f: &[u8], at: usize, cut: Cut, line: u64, x: Step) -> Step
    requires sane { Sane t.sheet × (real_day t.today ≡ true) }
    requires cuts { Cuts f.now at cut }
    requires passes { Passes t f.now at line x }
    ensures { Puts t f.now at cut line x out.old out.new result }
{
    let stop = cut.stop;
    match scan::kind::kind_of(&f[at..stop]) {
        LineKind::Item => Step {
            next: listing::item::put_item(out, x.next, t, f, line, at, stop, x.single),
            kind: x.kind,
            single: x.single,
        },
        LineKind::Group => {
            let single = is_single(&f[at..stop], t.sheet, t.today);
            Step {
                next: put_group(out, x.next, t, f, at, cut, line, x.kind, single),
                kind: x.kind,
                single,
            }
        }
        LineKind::File => Step {
            next: x.next,
            kind: fileline::take::take_file(&f[at..stop], t.sheet).kind,
            single: x.single,
        },
        LineKind::Head => x,
        LineKind::GroupEnd => x,
        LineKind::FileEnd => x,
    }
}

// All warnings of an accepted file, in file order.
pub fn put_warnings(out: &mut [u8], to: usize, t: Telling, f: &[u8]) -> usize
    requires sane { Sane t.sheet × (real_day t.today ≡ true) }
    requires f_value { accepts (judge t.sheet t.today f.now) ≡ true }
    ensures { Counted out.old to (listed t f.now (warned_in t.sheet t.today f.now)) out.new result }
{
    let mut at: usize = 0;
    let mut line: u64 = 1;
    let mut x = Step {
        next: to,
        kind: 0,
        single: false,
    };
    while at < f.len() {
        let cut = scan::line::next_line(f, at);
        x = put_line(out, t, f, at, cut, line, x);
        at = cut.next;
        line = line + 1;
    }
    x.next
}
