// The sheets, known by name. A sheet is a record of what its bank asks; every rule takes it as a parameter and is proved once.
#![tactic(auto)]

ghost use Rattle.std.specs.Prelude.{◌≡◌};
ghost use Rattle.sheet.specs.Sheets.{KindsOf, LimitsOf, kind_allowed, bank_allowed, sheet_of, sheet_by};

// What a sheet asks of the text of an item.
#[derive(Clone, Copy)]
pub struct Style {
    // a text has a byte or more, the first not a space, and its message begins `AV:`; without this it is a message as it stands
    pub av: bool,
    // .. but `AV:` may be missing
    pub may: bool,
    // a name may follow the message
    pub names: bool,
    // what is too long is cut, with a warning; without this it is refused
    pub cuts: bool,
    // no part holds `#` or `~`
    pub clean: bool,
    // how many parts a message may have
    pub most: usize,
}

// What a sheet asks of a file.
#[derive(Clone, Copy)]
pub struct Sheet {
    // the number and the letter that callers name it by
    pub number: u64,
    pub letter: u8,
    // the payer's bank code, and whether any other may stand in its place
    pub bank: u64,
    pub anybank: bool,
    // kinds of account files go from 1501 to this one
    pub lastkind: u64,
    // the first line has fields; without this it is `UHL1` and anything
    pub header: bool,
    // the first line may lack all or half of its rest
    pub short: bool,
    // account files' numbers lie in the first line's interval, and none comes twice
    pub interval: bool,
    // an account may be spelled as 11 to 16 digits, and its base has at least so many digits
    pub joined: bool,
    pub basemin: usize,
    // a group's payer always has its field, which is empty where there is none; without this the field is missing
    pub emptypayer: bool,
    // a payer spelled with zeros only is none
    pub zeropayer: bool,
    // a due date may also be spelled RRRRMMDD
    pub longdate: bool,
    // due days: how many days ahead at most, whether a past day is taken, and whether it is warned of
    pub ahead: u64,
    pub early: bool,
    pub warnpast: bool,
    // .. but those of kind 1502 are judged for each item, by its payee bank, up to a month ahead
    pub collects: bool,
    // `3+` and `5+` close as `3 +` and `5 +` do
    pub near: bool,
    // an item's amount: how many digits, how much, and whether a comma may stand before the haléř
    pub itemdigits: usize,
    pub itemmax: u64,
    pub comma: bool,
    // the ninth digit of the bank field is the priority
    pub priority: bool,
    // both spaces of the tail always stand there, around a symbol that may be empty
    pub fixedtail: bool,
    // a text may follow with no symbol before it
    pub bare: bool,
    pub text: Style,
    // a total that differs from the sum is refused; without this it is warned of
    pub strict: bool,
    // items in the whole file
    pub fileitems: u64,
}

// Kinds of account files: all from the first to the last.
#[derive(Clone, Copy)]
pub struct Kinds {
    pub first: u64,
    pub last: u64,
}

// How many items a file may have; how many digits an item's amount, and how much it may be; how many days ahead a due day may lie.
#[derive(Clone, Copy)]
pub struct Limits {
    pub items: u64,
    pub digits: usize,
    pub amount: u64,
    pub ahead: u64,
}

impl Sheet {
    pub const K: Sheet = Sheet {
        number: 1,
        letter: 75,
        bank: 8100,
        anybank: false,
        lastkind: 1501,
        header: true,
        short: true,
        interval: true,
        joined: false,
        basemin: 2,
        emptypayer: false,
        zeropayer: true,
        longdate: false,
        ahead: 364,
        early: false,
        warnpast: false,
        collects: false,
        near: false,
        itemdigits: 14,
        itemmax: 99999999999999,
        comma: false,
        priority: true,
        fixedtail: false,
        bare: false,
        text: Style {
            av: true,
            may: false,
            names: false,
            cuts: false,
            clean: false,
            most: 4,
        },
        strict: true,
        fileitems: 99999000,
    };

    pub const S: Sheet = Sheet {
        number: 2,
        letter: 83,
        bank: 800,
        anybank: false,
        lastkind: 1502,
        header: true,
        short: false,
        interval: false,
        joined: false,
        basemin: 1,
        emptypayer: true,
        zeropayer: false,
        longdate: false,
        ahead: 36525,
        early: false,
        warnpast: false,
        collects: false,
        near: false,
        itemdigits: 12,
        itemmax: 999999999999,
        comma: false,
        priority: false,
        fixedtail: true,
        bare: false,
        text: Style {
            av: false,
            may: false,
            names: false,
            cuts: false,
            clean: false,
            most: 1,
        },
        strict: true,
        fileitems: 1000,
    };

    pub const C: Sheet = Sheet {
        number: 3,
        letter: 67,
        bank: 300,
        anybank: true,
        lastkind: 1504,
        header: false,
        short: false,
        interval: false,
        joined: true,
        basemin: 1,
        emptypayer: false,
        zeropayer: false,
        longdate: true,
        ahead: 365,
        early: true,
        warnpast: true,
        collects: true,
        near: true,
        itemdigits: 14,
        itemmax: 99999999999999,
        comma: false,
        priority: false,
        fixedtail: false,
        bare: true,
        text: Style {
            av: true,
            may: true,
            names: true,
            cuts: true,
            clean: false,
            most: 4,
        },
        strict: false,
        fileitems: 99999000,
    };

    pub const E: Sheet = Sheet {
        number: 4,
        letter: 69,
        bank: 6100,
        anybank: false,
        lastkind: 1501,
        header: true,
        short: false,
        interval: false,
        joined: false,
        basemin: 1,
        emptypayer: true,
        zeropayer: true,
        longdate: false,
        ahead: 36525,
        early: true,
        warnpast: false,
        collects: false,
        near: true,
        itemdigits: 14,
        itemmax: 999999999999,
        comma: true,
        priority: false,
        fixedtail: false,
        bare: false,
        text: Style {
            av: true,
            may: false,
            names: false,
            cuts: false,
            clean: false,
            most: 4,
        },
        strict: false,
        fileitems: 99999000,
    };

    pub const P: Sheet = Sheet {
        number: 5,
        letter: 80,
        bank: 300,
        anybank: false,
        lastkind: 1502,
        header: true,
        short: false,
        interval: false,
        joined: true,
        basemin: 1,
        emptypayer: false,
        zeropayer: false,
        longdate: true,
        ahead: 365,
        early: true,
        warnpast: true,
        collects: true,
        near: false,
        itemdigits: 14,
        itemmax: 99999999999999,
        comma: false,
        priority: false,
        fixedtail: false,
        bare: false,
        text: Style {
            av: true,
            may: false,
            names: false,
            cuts: false,
            clean: true,
            most: 4,
        },
        strict: true,
        fileitems: 99999000,
    };

    // The kinds of account files that it takes.
    pub fn kinds(self) -> Kinds
        ensures { KindsOf self result }
    {
        Kinds {
            first: 1501,
            last: self.lastkind,
        }
    }

    // Its limits on a file, on an item and on a due day.
    pub fn limits(self) -> Limits
        ensures { LimitsOf self result }
    {
        Limits {
            items: self.fileitems,
            digits: self.itemdigits,
            amount: self.itemmax,
            ahead: self.ahead,
        }
    }

    // Its bank's code, which stands in the files that are written.
    pub fn bank_code(self) -> u64
        ensures { result ≡ self.bank }
    {
        self.bank
    }

    // May an account file on this sheet name this bank?
    pub fn bank_allowed(self, code: u64) -> bool
        ensures { result ≡ bank_allowed self code }
    {
        if self.anybank {
            return true;
        }
        code == self.bank_code()
    }

    // May an account file on this sheet be of this kind?
    pub fn kind_allowed(self, kind: u64) -> bool
        ensures { result ≡ kind_allowed self kind }
    {
        let kinds = self.kinds();
        if kind < kinds.first {
            return false;
        }
        kind <= kinds.last
    }
}

// The sheet that a number names, if any.
pub fn sheet_of(number: u64) -> Option<Sheet>
    ensures { result ≡ sheet_of number }
{
    match number {
        1 => Some(Sheet::K),
        2 => Some(Sheet::S),
        3 => Some(Sheet::C),
        4 => Some(Sheet::E),
        5 => Some(Sheet::P),
        _ => None,
    }
}

// The sheet that a letter names, if any.
pub fn sheet_by(letter: u8) -> Option<Sheet>
    ensures { result ≡ sheet_by letter }
{
    match letter {
        75 => Some(Sheet::K),
        83 => Some(Sheet::S),
        67 => Some(Sheet::C),
        69 => Some(Sheet::E),
        80 => Some(Sheet::P),
        _ => None,
    }
}
