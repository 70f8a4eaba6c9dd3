//! A [`Token`] is a number or a keyword. A line consists of tokens, with single spaces between
//! them.

ghost use Rattle.std.specs.Prelude.{◌≡◌, List, MatchOption};
ghost use Rattle.plan_lines.specs.Tokens.{IsRow, IsShort, keyword_text, token_text};
ghost use Rattle.plan_lines.specs.declared.tokens.Keyword.{Keyword as KeywordOf};
ghost use Rattle.plan_lines.specs.declared.tokens.Token.{Token as TokenOf};

use crate::numbers::read_count;
use arrayvec::ArrayVec;

/// A word that means something in a line.
#[derive(Clone, Copy)]
pub enum Keyword {
    Pool,
    Group,
    Command,
    Need,
    Take,
    GoOn,
    Stop,
    Cancel,
    Well,
    Failed,
    Ended,
    Now,
    Size,
    Done,
    Fresh,
    Busy,
    Ok,
    Interrupted,
    Cut,
    Standings,
}

/// A number or a keyword.
#[derive(Clone, Copy)]
pub enum Token {
    Number(u64),
    Keyword(Keyword),
}

impl Default for Token {
    fn default() -> Self
        ensures { result ≡ Token.Number 0 }
    {
        Token::Number(0)
    }
}

/// The most tokens of a line.
pub const MOST_TOKENS: usize = 7;

/// The tokens of a line.
pub type Tokens = ArrayVec<Token, MOST_TOKENS>;

/// Reads a keyword, and returns `None` if no keyword is spelled so.
pub fn read_keyword(bytes: &[u8]) -> Option<Keyword>
    ensures { MatchOption result ((k : KeywordOf) → keyword_text k ≡ bytes.now → ⊥)
        (λ k. keyword_text k ≡ bytes.now) }
{
    match bytes {
        b"pool" => Some(Keyword::Pool),
        b"group" => Some(Keyword::Group),
        b"command" => Some(Keyword::Command),
        b"need" => Some(Keyword::Need),
        b"take" => Some(Keyword::Take),
        b"go-on" => Some(Keyword::GoOn),
        b"stop" => Some(Keyword::Stop),
        b"cancel" => Some(Keyword::Cancel),
        b"well" => Some(Keyword::Well),
        b"failed" => Some(Keyword::Failed),
        b"ended" => Some(Keyword::Ended),
        b"now" => Some(Keyword::Now),
        b"size" => Some(Keyword::Size),
        b"done" => Some(Keyword::Done),
        b"fresh" => Some(Keyword::Fresh),
        b"busy" => Some(Keyword::Busy),
        b"ok" => Some(Keyword::Ok),
        b"cut" => Some(Keyword::Cut),
        b"standings" => Some(Keyword::Standings),
        b"interrupted" => Some(Keyword::Interrupted),
        _ => None,
    }
}

/// Reads a token, and returns `None` if no token is spelled so. A number has at most 12 digits, and
/// no leading zeros.
pub fn read_token(bytes: &[u8]) -> Option<Token>
    ensures { MatchOption result ((t : TokenOf) → IsShort t → token_text t ≡ bytes.now → ⊥)
        (λ t. IsShort t × (token_text t ≡ bytes.now)) }
{
    match read_count(bytes) {
        Some(number) => Some(Token::Number(number)),
        None => match read_keyword(bytes) {
            Some(keyword) => Some(Token::Keyword(keyword)),
            None => None,
        },
    }
}

/// Reads the tokens of a line, and returns `None` if the line doesn't consist of one to seven
/// tokens with single spaces between them.
pub fn read_tokens(line: &[u8]) -> Option<Tokens>
    ensures { MatchOption result ((tokens : List TokenOf) → IsRow tokens line.now → ⊥)
        (λ tokens. IsRow tokens.items line.now) }
{
    let mut tokens = Tokens::new();
    for word in line.split(|byte| *byte == b' ') {
        if tokens.is_full() {
            return None;
        }
        let Some(token) = read_token(word) else {
            return None;
        };
        tokens.push(token);
    }
    Some(tokens)
}
