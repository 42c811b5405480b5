// The fields of a batch that can be wrong, and where the first wrong one is.
ghost use Rattle.std.specs.Prelude.{◌≡◌};
ghost use Rattle.rows.specs.field.Numbers.{number_of};

// Fields of the header and of each kind of row. An account and a text are one field each.
#[derive(Clone, Copy)]
pub enum Field {
    // the row itself: missing, of a kind not due, or one too many
    Row,
    HeaderDate,
    HeaderName,
    HeaderClient,
    HeaderFrom,
    HeaderTo,
    FileKind,
    FileNumber,
    GroupDue,
    GroupPayer,
    ItemPayer,
    ItemPayee,
    ItemBank,
    ItemAmount,
    ItemVariable,
    ItemSpecific,
    ItemConstant,
    ItemPriority,
    ItemPart1,
    ItemPart2,
    ItemPart3,
    ItemPart4,
    ItemName,
    ItemReference,
}

impl Field {
    // The number that is answered: of a row's field its first word in the row, so fields of several kinds of row share one.
    pub fn number(self) -> u64
        ensures { result ≡ number_of self }
    {
        match self {
            Field::Row => 0,
            Field::HeaderDate | Field::FileKind | Field::GroupDue | Field::ItemPayer => 1,
            Field::HeaderName | Field::FileNumber | Field::GroupPayer => 2,
            Field::HeaderClient | Field::ItemPayee => 3,
            Field::HeaderFrom => 4,
            Field::HeaderTo | Field::ItemBank => 5,
            Field::ItemAmount => 6,
            Field::ItemVariable => 7,
            Field::ItemSpecific => 8,
            Field::ItemConstant => 9,
            Field::ItemPriority => 10,
            Field::ItemPart1 => 11,
            Field::ItemPart2 => 13,
            Field::ItemPart3 => 15,
            Field::ItemPart4 => 17,
            Field::ItemName => 19,
            Field::ItemReference => 21,
        }
    }
}

// What is wrong first: a field of a row, which count from 1, or of the header, whose row is 0.
#[derive(Clone, Copy)]
pub struct Wrong {
    pub row: u64,
    pub field: Field,
}
