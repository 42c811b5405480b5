// Tests of the parts of a message and of a name: what a batch may hold, and what a sheet can carry.
ghost use Rattle.std.specs.Prelude.{◌≡◌, true, ◌≤◌, ltb, length, drop};
ghost use Rattle.base.specs.Pick.{pick};
ghost use Rattle.paper.specs.Bytes.{null, bar, mark};
ghost use Rattle.paper.specs.Texts.{lacks, taken, name_proper, part_proper, part_carried, name_carried};

use sheet::Style;

// A name, or a part but for its bars: 0 to 35 text bytes. It is what s has from `from` on; what stands before it is lent too, so that a short
// text is passed in one block.
pub fn name_proper(s: &[u8], from: usize) -> bool
    requires { from ≤ length s.now }
    ensures { result ≡ name_proper (drop from s.now) }
{
    if 35 < s.len() - from {
        return false;
    }
    scan::seek::all_text(s, from)
}

// No `|` stands in s from `from` on.
fn no_bar(s: &[u8], from: usize) -> bool
    requires { from ≤ length s.now }
    ensures { result ≡ lacks bar (drop from s.now) }
{
    scan::find::find_byte(s, from, 124) == s.len()
}

// A part: 0 to 35 text bytes, none of them `|`.
pub fn part_proper(s: &[u8], from: usize) -> bool
    requires { from ≤ length s.now }
    ensures { result ≡ part_proper (drop from s.now) }
{
    if name_proper(s, from) {
        return no_bar(s, from);
    }
    false
}

// p holds no ` NP:`. A byte is found faster than a pattern, and most parts have no `:`.
fn no_mark(p: &[u8]) -> bool
    ensures { result ≡ lacks mark p.now }
{
    if scan::find::find_byte(p, 0, 58) == p.len() {
        return true;
    }
    scan::seek::lacks_pattern(p, b" NP:")
}

// Part i has a place on the sheet, or needs none because it is empty.
fn has_place(y: Style, i: usize, p: &[u8]) -> bool
    ensures { result ≡ pick (ltb i y.most) true (null p.now) }
{
    let most = y.most;
    if i < most {
        return true;
    }
    p.len() == 0
}

// p holds no ` NP:` where names are: it would come back as a name.
fn unmarked(y: Style, p: &[u8]) -> bool
    ensures { result ≡ pick y.names (lacks mark p.now) true }
{
    let names = y.names;
    if names {
        return no_mark(p);
    }
    true
}

// The sheet can carry p as part i, from 0 on, where it takes p's bytes.
pub fn part_carried(y: Style, i: usize, p: &[u8]) -> bool
    requires { taken y p.now ≡ true }
    ensures { result ≡ part_carried y i p.now }
{
    if has_place(y, i, p) {
        return unmarked(y, p);
    }
    false
}

// The sheet can carry n as the name.
pub fn name_carried(y: Style, n: &[u8]) -> bool
    ensures { result ≡ name_carried y n.now }
{
    let named = y.names;
    if named {
        return true;
    }
    n.len() == 0
}
