// Whether an item has a text, and how long it is in the canonical spelling.
ghost use Rattle.std.specs.Prelude.{◌≡◌, ◌≤◌, length};
ghost use Rattle.paper.specs.Bytes.{null};
ghost use Rattle.paper.specs.Texts.{joined, trim, spell_name, spell_text, no_text};
ghost use Rattle.text.specs.extent.Four.{four};

use sheet::Style;

// All parts are empty.
pub fn no_parts(a: &[u8], b: &[u8], c: &[u8], d: &[u8]) -> bool
    ensures { result ≡ null (trim (four a.now b.now c.now d.now)) }
{
    if d.len() == 0 {
        if c.len() == 0 {
            if b.len() == 0 {
                return a.len() == 0;
            }
            return false;
        }
        return false;
    }
    false
}

// All parts and the name are empty: there is no text, but where a sheet always has one.
pub fn no_text(a: &[u8], b: &[u8], c: &[u8], d: &[u8], n: &[u8]) -> bool
    ensures { result ≡ no_text (four a.now b.now c.now d.now) n.now }
{
    if no_parts(a, b, c, d) {
        return n.len() == 0;
    }
    false
}

// How long the parts up to the last one not empty are, with their bars.
fn parts_len(a: &[u8], b: &[u8], c: &[u8], d: &[u8]) -> usize
    requires a_len_bound { length a.now ≤ 35 }
    requires b_len_bound { length b.now ≤ 35 }
    requires c_len_bound { length c.now ≤ 35 }
    requires d_len_bound { length d.now ≤ 35 }
    ensures value { result ≡ length (joined (trim (four a.now b.now c.now d.now))) }
    ensures upper_bound { result ≤ 143 }
{
    if d.len() == 0 {
        if c.len() == 0 {
            if b.len() == 0 {
                return a.len();
            }
            return a.len() + 1 + b.len();
        }
        return a.len() + 1 + b.len() + 1 + c.len();
    }
    a.len() + 1 + b.len() + 1 + c.len() + 1 + d.len()
}

// How long ` NP:` and the name are, or 0 if it is empty.
fn name_len(n: &[u8]) -> usize
    requires { length n.now ≤ 35 }
    ensures value { result ≡ length (spell_name n.now) }
    ensures upper_bound { result ≤ 39 }
{
    if n.len() == 0 {
        return 0;
    }
    4 + n.len()
}

// How long the text is.
pub fn text_len(y: Style, a: &[u8], b: &[u8], c: &[u8], d: &[u8], n: &[u8]) -> usize
    requires a_len_bound { length a.now ≤ 35 }
    requires b_len_bound { length b.now ≤ 35 }
    requires c_len_bound { length c.now ≤ 35 }
    requires d_len_bound { length d.now ≤ 35 }
    requires n_len_bound { length n.now ≤ 35 }
    ensures value { result ≡ length (spell_text y (four a.now b.now c.now d.now) n.now) }
    ensures upper_bound { result ≤ 200 }
{
    let av = y.av;
    if av {
        let alone = no_parts(a, b, c, d);
        if alone {
            return 3 + n.len();
        }
        return 3 + parts_len(a, b, c, d) + name_len(n);
    }
    parts_len(a, b, c, d)
}
