// Words by numbers: counted, and put where they have room. A number that has no words puts nothing.
ghost use Rattle.numeral.specs.counted.Counted.{Counted};
ghost use Rattle.sentences.specs.Phrases.{said, fields, rules, plainly};
ghost use Rattle.sentences.specs.Tables.{phrases_of};

use numeral::counted::put_bytes;

// The words of n in a table of numbers and their words.
pub fn put_said(out: &mut [u8], at: usize, table: &[(u64, &[u8])], n: u64) -> usize
    ensures { Counted out.old at (said (phrases_of table.now) n) out.new result }
{
    for &(number, words) in table {
        if number == n {
            return put_bytes(out, at, words);
        }
    }
    at
}

// The fields of lines, and the lines that close. They stand in memory once, as do the tables below.
static FIELDS: [(u64, &[u8]); 27] = [
    (0, b"the line"),
    (1, b"the creation date"),
    (2, b"the name"),
    (3, b"the client number"),
    (4, b"the interval's start"),
    (5, b"the interval's end"),
    (6, b"the rest"),
    (10, b"the kind"),
    (11, b"the number"),
    (12, b"the bank"),
    (20, b"the payer's account"),
    (21, b"the total"),
    (22, b"the due date"),
    (30, b"the payer's account"),
    (31, b"the payee's account"),
    (32, b"the amount"),
    (33, b"the variable symbol"),
    (34, b"the bank field"),
    (35, b"the specific symbol"),
    (36, b"the text"),
    (37, b"message part 1"),
    (38, b"message part 2"),
    (39, b"message part 3"),
    (40, b"message part 4"),
    (41, b"the name"),
    (50, b"the group's end"),
    (51, b"the account file's end"),
];

// The words of a field.
pub fn put_field(out: &mut [u8], at: usize, field: u64) -> usize
    ensures { Counted out.old at (said fields field) out.new result }
{
    put_said(out, at, &FIELDS, field)
}

// The rules that refusals go by.
static RULES: [(u64, &[u8]); 13] = [
    (3, b"another line is due"),
    (4, b"the field is not spelled as it must be"),
    (5, b"the account is not valid"),
    (6, b"the amount is not allowed"),
    (7, b"the kind is not on the sheet"),
    (8, b"the payer's bank is not the sheet's"),
    (9, b"the interval or the number is not allowed"),
    (10, b"the total is not the sum"),
    (11, b"the day is not allowed"),
    (12, b"the payee's bank is 0000"),
    (13, b"a leading digit is not allowed"),
    (14, b"the text breaks the sheet"),
    (15, b"there are too many"),
];

// .. of a rule.
pub fn put_rule(out: &mut [u8], at: usize, number: u64) -> usize
    ensures { Counted out.old at (said rules number) out.new result }
{
    put_said(out, at, &RULES, number)
}

// What was allowed, by the cause, where that needs no more than words.
static PLAINLY: [(u64, &[u8]); 19] = [
    (30, b"a first line, UHL1"),
    (31, b"an account file, 1"),
    (32, b"a group, 2"),
    (33, b"an item"),
    (34, b"an item or the group's end, 3 +"),
    (35, b"a group, 2, or the account file's end, 5 +"),
    (36, b"an account file, 1, or the end of the file"),
    (42, b"the end of the line"),
    (
        50,
        b"a prefix whose weighted digits add up to a multiple of 11",
    ),
    (
        51,
        b"a base whose weighted digits add up to a multiple of 11",
    ),
    (52, b"a base with two digits or more that are not zero"),
    (92, b"first three digits that no account file before has"),
    (110, b"a real day of 2000 to 2099"),
    (120, b"0001 to 9999"),
    (130, b"0 as the ninth digit from the right"),
    (131, b"0 as the tenth digit from the right"),
    (140, b"a text that begins with AV:"),
    (143, b"no bar"),
    (144, b"no # and no ~"),
];

// .. of what was allowed.
pub fn put_plainly(out: &mut [u8], at: usize, cause: u64) -> usize
    ensures { Counted out.old at (said plainly cause) out.new result }
{
    put_said(out, at, &PLAINLY, cause)
}
