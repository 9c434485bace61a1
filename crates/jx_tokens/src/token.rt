//! Tokens with their places.
use flow_types::Text;

/// What a token is. A word and a mark of one meaning are one kind.
#[derive(Drop)]
pub enum Kind {
    /// A whole number, at most 9223372036854775808.
    Number(u64),
    /// A text, its escapes read.
    Text(Text),
    /// A name that isn't reserved.
    Name(Text),
    /// `null`
    Null,
    /// `true`
    True,
    /// `false`
    False,
    /// `for`
    For,
    /// `in`
    In,
    /// `if`
    If,
    /// `or`, `||`
    Or,
    /// `and`, `&&`
    And,
    /// `not`, `!`
    Not,
    /// `==`
    Equal,
    /// `!=`
    Unequal,
    /// `<`
    Less,
    /// `<=`
    AtMost,
    /// `>`
    More,
    /// `>=`
    AtLeast,
    /// `+`
    Plus,
    /// `-`
    Minus,
    /// `*`
    Times,
    /// `/`
    Over,
    /// `%`
    Rest,
    /// `(`
    OpenGroup,
    /// `)`
    CloseGroup,
    /// `[`
    OpenList,
    /// `]`
    CloseList,
    /// `{`
    OpenObject,
    /// `}`
    CloseObject,
    /// `,`
    Comma,
    /// `:`
    Colon,
}

/// A token, with the byte at which it begins.
#[derive(Drop)]
pub struct Token {
    /// Its first byte, counted from 0.
    pub place: usize,
    /// What it is.
    pub kind: Kind,
}

/// What stands at the front of a text.
#[derive(Drop)]
pub enum Piece {
    /// So many bytes that separate.
    Gap(usize),
    /// A token of so many bytes.
    Token(Kind, usize),
}
