//! One line of the tape.
ghost use Rattle.std.specs.Prelude.{◌≡◌, Some, Ok};
ghost use Rattle.tape.specs.Lines.{keyword_of, item_by, item_of, once_of, done, beside, added, line_of};

use crate::item::{Header, Item, Keyword, Trouble};
use crate::words::{SPACE, cut, numbers, trimmed};
use price::day::{Band, Trade};

const KEYWORDS: [Keyword; 6] = [
    Keyword::Last,
    Keyword::Band,
    Keyword::Bid,
    Keyword::Ask,
    Keyword::Committee,
    Keyword::Trade,
];

impl Keyword {
    fn of(word: &[u8]) -> Option<Keyword>
        ensures { result ≡ keyword_of word.now }
    {
        KEYWORDS
            .iter()
            .find(|keyword| word == keyword.name().as_bytes())
            .copied()
    }

    /// The item that the numbers after this keyword make.
    fn item(self, text: &[u8]) -> Option<Item>
        ensures { result ≡ item_by self text.now }
    {
        let item = match self {
            Keyword::Last => {
                let [second] = numbers::<1>(text)?;
                Item::Last(second)
            }
            Keyword::Band => {
                let [low, high] = numbers::<2>(text)?;
                Item::Band(Band { low, high })
            }
            Keyword::Bid => {
                let [price] = numbers::<1>(text)?;
                Item::Bid(price)
            }
            Keyword::Ask => {
                let [price] = numbers::<1>(text)?;
                Item::Ask(price)
            }
            Keyword::Committee => {
                let [price] = numbers::<1>(text)?;
                Item::Committee(price)
            }
            Keyword::Trade => {
                let [second, price, count] = numbers::<3>(text)?;
                Item::Trade(Trade {
                    second,
                    price,
                    count,
                })
            }
        };
        Some(item)
    }
}

impl Item {
    /// The item of a line, or none where the line is blank or begins with `#`.
    fn of(line: &[u8]) -> Result<Option<Item>, Trouble>
        ensures { result ≡ item_of line.now }
    {
        let text = trimmed(line);
        if text.first().is_none_or(|b| *b == b'#') {
            return Ok(None);
        }
        let (word, rest) = cut(text, SPACE);
        let keyword = Keyword::of(word).ok_or(Trouble::Keyword)?;
        let item = keyword.item(rest).ok_or(Trouble::Numbers(keyword))?;
        Ok(Some(item))
    }
}

/// Says for the first time what may not be said again.
fn once<T: Copy>(said: &mut Option<T>, now: T, keyword: Keyword) -> Result<(), Trouble>
    ensures { once_of said.old now keyword ≡ done (λ _. said.new) result }
{
    match said.replace(now) {
        Some(_) => Err(Trouble::Again(keyword)),
        None => Ok(()),
    }
}

impl Header {
    /// Notes what one item says: in the header, or it is a trade.
    fn note(&mut self, item: Item) -> Result<Option<Trade>, Trouble>
        ensures { beside self.new result ≡ added self.old (Ok (Some item)) }
    {
        match item {
            Item::Last(second) => once(&mut self.last, second, Keyword::Last)?,
            Item::Band(band) => once(&mut self.band, band, Keyword::Band)?,
            Item::Bid(price) => once(&mut self.bid, price, Keyword::Bid)?,
            Item::Ask(price) => once(&mut self.ask, price, Keyword::Ask)?,
            Item::Committee(price) => once(&mut self.committee, price, Keyword::Committee)?,
            Item::Trade(trade) => return Ok(Some(trade)),
        }
        Ok(None)
    }

    /// Notes what one line says: in the header, or it is a trade.
    pub(crate) fn note_line(&mut self, line: &[u8]) -> Result<Option<Trade>, Trouble>
        ensures { beside self.new result ≡ line_of self.old line.now }
    {
        match Item::of(line)? {
            Some(item) => self.note(item),
            None => Ok(None),
        }
    }
}
