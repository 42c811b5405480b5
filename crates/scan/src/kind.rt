// What kind of line a line is: it is known by its first bytes.
ghost use Rattle.std.specs.Prelude.{◌≡◌, ◌≤◌, length, get_or};
ghost use Rattle.paper.specs.Entries.{kind_of};
ghost use Rattle.scan.specs.kind.Told.{told};

// The six kinds of lines.
#[derive(Clone, Copy, PartialEq, Eq)]
pub enum LineKind {
    Head,
    File,
    Group,
    Item,
    GroupEnd,
    FileEnd,
}

// The kind of the line s.
pub fn kind_of(s: &[u8]) -> LineKind
    ensures { told result ≡ kind_of s.now }
{
    if s.len() < 2 {
        return LineKind::Item;
    }
    // Nearly every line is an item, and nearly every item has a digit or a dash here: two tests.
    let b = s[1];
    if 43 < b {
        if b == 72 {
            return headed(s);
        }
        return LineKind::Item;
    }
    if b == 32 {
        return spaced(s);
    }
    if b == 43 {
        return plussed(s);
    }
    LineKind::Item
}

// A line with an H as its second byte.
fn headed(s: &[u8]) -> LineKind
    requires in_bounds { 2 ≤ length s.now }
    requires s_value { get_or s.now 1 0 ≡ 72 }
    ensures { told result ≡ kind_of s.now }
{
    if s.len() < 4 {
        return LineKind::Item;
    }
    if s[0] == 85 {
        if s[2] == 76 {
            if s[3] == 49 {
                return LineKind::Head;
            }
        }
    }
    LineKind::Item
}

// A line with a space as its second byte.
fn spaced(s: &[u8]) -> LineKind
    requires in_bounds { 2 ≤ length s.now }
    requires s_value { get_or s.now 1 0 ≡ 32 }
    ensures { told result ≡ kind_of s.now }
{
    match s[0] {
        49 => LineKind::File,
        50 => LineKind::Group,
        51 => LineKind::GroupEnd,
        53 => LineKind::FileEnd,
        _ => LineKind::Item,
    }
}

// A line with a plus as its second byte.
fn plussed(s: &[u8]) -> LineKind
    requires in_bounds { 2 ≤ length s.now }
    requires s_value { get_or s.now 1 0 ≡ 43 }
    ensures { told result ≡ kind_of s.now }
{
    match s[0] {
        51 => LineKind::GroupEnd,
        53 => LineKind::FileEnd,
        _ => LineKind::Item,
    }
}
