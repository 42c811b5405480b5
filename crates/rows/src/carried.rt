// What a sheet can carry of one row: refusal 21, and the field that it names. The rows are as "The batch" says, which is tested before.
ghost use Rattle.std.specs.Prelude.{◌≡◌, true, List, ℕ, ◌<◌};
ghost use Rattle.sheet.specs.Sheets.{kind_allowed};
ghost use Rattle.paper.specs.Days.{real_day, due_allowed};
ghost use Rattle.paper.specs.Terms.{day_here};
ghost use Rattle.paper.specs.Texts.{taken, part_carried, name_carried};
ghost use Rattle.paper.specs.Batch.{Header};
ghost use Rattle.paper.specs.FileLine.{number_allowed};
ghost use Rattle.paper.specs.Proper.{Verdict, check};
ghost use Rattle.paper.specs.Carried.{item_carried};
ghost use Rattle.fileline.specs.seen.Bits.{Holds};
ghost use Rattle.rows.specs.read.Told.{text_of_span, item_of};
ghost use Rattle.text.specs.span.Held.{Within};
ghost use Rattle.rows.specs.read.Sized.{Inside, Sized};
ghost use Rattle.rows.specs.read.After.{after};
ghost use Rattle.rows.specs.carried.Words.{Taken, texts_carried};

use crate::field::Field;
use crate::read::ItemRow;
use fileline::seen::Seen;
use sheet::{Sheet, Style};
use text::span::Span;

// An account file: its kind is one of the sheet's, and its number is not refused.
pub fn file_carried(
    sh: Sheet,
    from: u64,
    to: u64,
    seen: Seen,
    kind: u64,
    number: u64,
) -> Result<(), Field>
    requires { number < 1000000 }
    ensures { (h : Header) (l : List ℕ) → h.from ≡ from → h.to ≡ to → Holds seen.words l → (k : ℕ) (rest : Verdict)
        → after k result rest ≡ check k 1 (kind_allowed sh kind) (check k 2 (number_allowed sh.interval h l number) rest) }
{
    let known = sh.kind_allowed(kind);
    if !known {
        return Err(Field::FileKind);
    }
    match fileline::number_fault(sh.interval, from, to, seen, number) {
        None => Ok(()),
        Some(_) => Err(Field::FileNumber),
    }
}

// A group of an account file of this kind: its due day is one that the sheet takes today, where that is judged by the day alone.
pub fn group_carried(sh: Sheet, today: u64, kind: u64, date: u64) -> Result<(), Field>
    requires today_value { real_day today ≡ true }
    requires date_value { real_day date ≡ true }
    ensures { (k : ℕ) (rest : Verdict) → after k result rest ≡ check k 1 (due_allowed (day_here sh kind) sh.early sh.ahead today date) rest }
{
    let limits = sh.limits();
    let here = calendar::term::day_here(sh, kind);
    if calendar::due_allowed(here, sh.early, limits.ahead, today, date) {
        return Ok(());
    }
    Err(Field::GroupDue)
}

// Part i of an item's message, where it stands and the sheet takes its bytes. An empty one always can be.
fn part_here(y: Style, i: usize, texts: &[u8], p: Span) -> bool
    requires within { Within texts.now p }
    requires p_value { taken y (text_of_span texts.now p) ≡ true }
    ensures { result ≡ part_carried y i (text_of_span texts.now p) }
{
    if p.len == 0 {
        return true;
    }
    let at = p.at;
    let end = at + p.len;
    text::fits::part_carried(y, i, &texts[at..end])
}

// The same on a sheet that takes neither `#` nor `~`.
fn clean_here(y: Style, i: usize, texts: &[u8], p: Span) -> bool
    requires clean_value { y.clean ≡ true }
    requires within { Within texts.now p }
    ensures { result ≡ part_carried y i (text_of_span texts.now p) }
{
    if crate::clean::part_clean(texts, p) {
        return part_here(y, i, texts, p);
    }
    false
}

// An item's name, where it stands.
fn name_here(y: Style, texts: &[u8], p: Span) -> bool
    requires { Within texts.now p }
    ensures { result ≡ name_carried y (text_of_span texts.now p) }
{
    let at = p.at;
    let end = at + p.len;
    text::fits::name_carried(y, &texts[at..end])
}

// An item's texts, four parts and the name, where the sheet takes the parts' bytes.
fn taken_carried(y: Style, texts: &[u8], x: ItemRow) -> Result<(), Field>
    requires inside { Inside texts.now x }
    requires taken { Taken y texts.now x }
    ensures { (k : ℕ) (rest : Verdict) → after k result rest ≡ texts_carried y k (item_of texts.now x) rest }
{
    let first = part_here(y, 0, texts, x.part1);
    if !first {
        return Err(Field::ItemPart1);
    }
    let second = part_here(y, 1, texts, x.part2);
    if !second {
        return Err(Field::ItemPart2);
    }
    let third = part_here(y, 2, texts, x.part3);
    if !third {
        return Err(Field::ItemPart3);
    }
    let fourth = part_here(y, 3, texts, x.part4);
    if !fourth {
        return Err(Field::ItemPart4);
    }
    let named = name_here(y, texts, x.name);
    if !named {
        return Err(Field::ItemName);
    }
    Ok(())
}

// .. where each part is to be looked at for `#` and `~`.
fn each_carried(y: Style, texts: &[u8], x: ItemRow) -> Result<(), Field>
    requires clean_value { y.clean ≡ true }
    requires inside { Inside texts.now x }
    ensures { (k : ℕ) (rest : Verdict) → after k result rest ≡ texts_carried y k (item_of texts.now x) rest }
{
    let first = clean_here(y, 0, texts, x.part1);
    if !first {
        return Err(Field::ItemPart1);
    }
    let second = clean_here(y, 1, texts, x.part2);
    if !second {
        return Err(Field::ItemPart2);
    }
    let third = clean_here(y, 2, texts, x.part3);
    if !third {
        return Err(Field::ItemPart3);
    }
    let fourth = clean_here(y, 3, texts, x.part4);
    if !fourth {
        return Err(Field::ItemPart4);
    }
    let named = name_here(y, texts, x.name);
    if !named {
        return Err(Field::ItemName);
    }
    Ok(())
}

// An item's texts. Parts that lie close together are looked at for `#` and `~` at once.
fn texts_carried(y: Style, texts: &[u8], x: ItemRow) -> Result<(), Field>
    requires { Inside texts.now x }
    ensures { (k : ℕ) (rest : Verdict) → after k result rest ≡ texts_carried y k (item_of texts.now x) rest }
{
    let clean = y.clean;
    if clean {
        if !crate::clean::parts_clean(texts, x) {
            return each_carried(y, texts, x);
        }
    }
    taken_carried(y, texts, x)
}

// An item: its amount, its priority and its texts.
pub fn item_carried(sh: Sheet, texts: &[u8], x: ItemRow) -> Result<(), Field>
    requires { Sized texts.now x }
    ensures { (k : ℕ) (rest : Verdict) → after k result rest ≡ item_carried sh k (item_of texts.now x) rest }
{
    let limits = sh.limits();
    let small = amount::amount_proper(limits.amount, x.amount);
    if !small {
        return Err(Field::ItemAmount);
    }
    let carried = bank::priority_carried(sh.priority, x.priority);
    if !carried {
        return Err(Field::ItemPriority);
    }
    texts_carried(sh.text, texts, x)
}
