// A line of the script into a move.
ghost use Rattle.std.specs.Prelude.{◌≤◌, length, IfOk};

use controller::Move;
use lines::Fault;

// What a line of the script asks for: a move, or that the state is printed.
#[derive(Clone, Copy)]
pub(crate) enum Asked {
    Move(Move),
    State,
}

// A line of the script, and how many outside bytes it has.
#[derive(Clone, Copy)]
pub(crate) struct Line {
    pub(crate) asked: Asked,
    pub(crate) len: usize,
}

// The word that a line begins with.
#[derive(Clone, Copy, PartialEq, Eq)]
enum Word {
    Local,
    Receive,
    Send,
    Reply,
    OuterMessage,
    OuterReply,
    Close,
    State,
}

impl Word {
    fn of(word: &[u8]) -> Option<Word> {
        match word {
            b"local" => Some(Word::Local),
            b"receive" => Some(Word::Receive),
            b"send" => Some(Word::Send),
            b"reply" => Some(Word::Reply),
            b"outer-message" => Some(Word::OuterMessage),
            b"outer-reply" => Some(Word::OuterReply),
            b"close" => Some(Word::Close),
            b"state" => Some(Word::State),
            _ => None,
        }
    }

    // How many numbers follow.
    fn count(self) -> usize
        ensures { result ≤ 4 }
    {
        match self {
            Word::Send | Word::OuterMessage => 4,
            Word::Close => 2,
            Word::State => 0,
            _ => 3,
        }
    }

    // The largest value of number i: the fourth of an outside message has 32 bits, all others 16.
    fn most(self, i: usize) -> u32 {
        if self == Word::OuterMessage && 3 <= i {
            return u32::MAX;
        }
        65535
    }

    // What the word asks for with these numbers.
    fn with(self, values: [u32; 4]) -> Asked {
        let a = half(values[0]);
        let b = half(values[1]);
        let c = half(values[2]);
        Asked::Move(match self {
            Word::Local => Move::Local(a, b, c),
            Word::Receive => Move::Receive(a, b, c),
            Word::Send => Move::Send(a, b, c, half(values[3])),
            Word::Reply => Move::Reply(a, b, c),
            Word::OuterMessage => Move::OuterMessage(a, b, c, values[3]),
            Word::OuterReply => Move::OuterReply(a, b, c),
            Word::Close => Move::Close(a, b),
            Word::State => return Asked::State,
        })
    }
}

// A number that fits 16 bits.
fn half(n: u32) -> u16 {
    u16::try_from(n).unwrap_or(u16::MAX)
}

// Reads a line's numbers, and where what follows them starts.
fn read_numbers(s: &[u8], word: Word) -> Result<([u32; 4], usize), Fault>
    ensures { IfOk result (λ read. read.1 ≤ length s.now) }
{
    let mut values = [0; 4];
    let mut at: usize = 0;
    for i in 0..word.count() {
        let (value, next) = lines::read_number(&s[at..], word.most(i))?;
        values[i] = value;
        at += next;
    }
    Ok((values, at))
}

// What follows a line's numbers: outside bytes, or nothing.
fn read_rest(s: &[u8], word: Word, outside: &mut [u8]) -> Result<usize, Fault>
    ensures { IfOk result (λ len. len ≤ length outside.new) }
{
    if word == Word::OuterMessage || word == Word::OuterReply {
        return lines::read_bytes(s, outside);
    }
    if lines::blanks(s) < s.len() {
        return Err(Fault::Trailing);
    }
    Ok(0)
}

// Reads a line of the script, and its outside bytes into `outside`.
pub(crate) fn read_line(s: &[u8], outside: &mut [u8]) -> Result<Line, Fault>
    ensures { IfOk result (λ line. line.len ≤ length outside.new) }
{
    let start = lines::blanks(s);
    let end = start + lines::word(&s[start..]);
    let word = Word::of(&s[start..end]).ok_or(Fault::Word)?;
    let (values, next) = read_numbers(&s[end..], word)?;
    let len = read_rest(&s[end + next..], word, outside)?;
    Ok(Line {
        asked: word.with(values),
        len,
    })
}
