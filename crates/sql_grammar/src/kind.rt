//! What the grammar of SQL tells apart.

/// The kind of a token. A keyword and a sign are each a kind of their own; of a name, a number and a
/// text the grammar sees only that it is one.
#[derive(Clone, Copy, Debug, PartialEq, Eq)]
pub enum Kind {
    /// The keyword `CREATE`.
    Create,
    /// The keyword `TABLE`.
    Table,
    /// The keyword `CONSTRAINT`.
    Constraint,
    /// The keyword `PRIMARY`.
    Primary,
    /// The keyword `KEY`.
    Key,
    /// The keyword `NOT`.
    Not,
    /// The keyword `NULL`.
    Null,
    /// The keyword `TINYINT`.
    Tinyint,
    /// The keyword `SMALLINT`.
    Smallint,
    /// The keyword `INTEGER`.
    Integer,
    /// The keyword `BIGINT`.
    Bigint,
    /// The keyword `VARCHAR`.
    Varchar,
    /// The keyword `BYTES`.
    Bytes,
    /// The keyword `UNIQUE`.
    Unique,
    /// The keyword `INDEX`.
    Index,
    /// The keyword `ON`.
    On,
    /// The keyword `PARTITION`.
    Partition,
    /// The keyword `COLUMN`.
    Column,
    /// The keyword `PROCEDURE`.
    Procedure,
    /// The keyword `PARAMETER`.
    Parameter,
    /// The keyword `AS`.
    As,
    /// The keyword `PROGRAM`.
    Program,
    /// The keyword `BEGIN`.
    Begin,
    /// The keyword `END`.
    End,
    /// The keyword `INSERT`.
    Insert,
    /// The keyword `INTO`.
    Into,
    /// The keyword `VALUES`.
    Values,
    /// The keyword `UPDATE`.
    Update,
    /// The keyword `SET`.
    Set,
    /// The keyword `WHERE`.
    Where,
    /// The keyword `DELETE`.
    Delete,
    /// The keyword `FROM`.
    From,
    /// The keyword `SELECT`.
    Select,
    /// The keyword `INNER`.
    Inner,
    /// The keyword `JOIN`.
    Join,
    /// The keyword `GROUP`.
    Group,
    /// The keyword `BY`.
    By,
    /// The keyword `ORDER`.
    Order,
    /// The keyword `LIMIT`.
    Limit,
    /// The keyword `COUNT`.
    Count,
    /// The keyword `SUM`.
    Sum,
    /// The keyword `MIN`.
    Min,
    /// The keyword `MAX`.
    Max,
    /// The keyword `ASC`.
    Asc,
    /// The keyword `DESC`.
    Desc,
    /// The keyword `OR`.
    Or,
    /// The keyword `AND`.
    And,
    /// The keyword `IS`.
    Is,
    /// The keyword `BETWEEN`.
    Between,
    /// The keyword `IN`.
    In,
    /// The keyword `ROWS`.
    Rows,
    /// The keyword `FIRST`.
    First,
    /// The keyword `LET`.
    Let,
    /// The keyword `SQL`.
    Sql,
    /// The keyword `IF`.
    If,
    /// The keyword `THEN`.
    Then,
    /// The keyword `ELSE`.
    Else,
    /// The keyword `FOR`.
    For,
    /// The keyword `DO`.
    Do,
    /// The keyword `ABORT`.
    Abort,
    /// The keyword `RETURN`.
    Return,
    /// The sign `(`.
    LeftParen,
    /// The sign `)`.
    RightParen,
    /// The sign `,`.
    Comma,
    /// The sign `;`.
    Semicolon,
    /// The sign `.`.
    Dot,
    /// The sign `*`.
    Star,
    /// The sign `+`.
    Plus,
    /// The sign `-`.
    Minus,
    /// The sign `/`.
    Slash,
    /// The sign `=`.
    Equal,
    /// The sign `<>` or `!=`.
    NotEqual,
    /// The sign `<`.
    Less,
    /// The sign `<=`.
    LessEqual,
    /// The sign `>`.
    Greater,
    /// The sign `>=`.
    GreaterEqual,
    /// The sign `?`.
    Question,
    /// The sign `:`.
    Colon,
    /// A word that is no keyword.
    Name,
    /// A number of at most 9223372036854775807.
    Number,
    /// A quoted text.
    Text,
    /// A token that no rule reads: a number above 9223372036854775807, or an unknown sign.
    Bad,
}

ghost use Rattle.std.specs.Prelude.{◌≡◌};
ghost use Rattle.sql_grammar.specs.Kinds.{same_kind};

impl Kind {
    /// Whether both are the same kind.
    pub fn is(self, other: Kind) -> bool
        ensures { result ≡ same_kind self other }
    {
        self == other
    }
}
