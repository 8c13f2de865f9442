// LINK, the service of request 6: it puts the words of a list where a text's tokens name them. It is public and asks nothing of its caller,
// and its contract says for every input what the call answers and leaves (specs/Calls.antt). It remembers where each word stands and how
// large it is, and this stands on the stack.
#![tactic(auto)]

ghost use Rattle.std.specs.Prelude.{◌≡◌, ◌≤◌, length};
ghost use Rattle.words_meaning.specs.Stock.{word_limit};
ghost use Rattle.words_shelf.specs.Shelf.{Readable};
ghost use Rattle.words_link.specs.Calls.{Links};
ghost use Rattle.words_link.specs.Parts.{WroteLinked};

use kinds::Cell;
use plan::Size;
use read::survey_text;
use words_check::check_list;
use words_meaning::{LinkRefusal, MOST};
use words_measure::{Sizes, measure};
use words_shelf::{NO_WORD, Shelf, Words};
use words_write::write;

// A shelf that a list of stock words can have: of 256 places, and of no more words. A `Shelf` may have any number of both, so who is lent one
// would have to ask for this again.
#[derive(Clone, Copy)]
pub struct StockShelf<'a> {
    pub shelf: Shelf<'a>,
    pub ghost few: { shelf.below ≤ word_limit },
    pub ghost places: { length shelf.words.now ≡ word_limit },
}

// Links a text that reads: it is measured first, so that nothing is written unless all of it is.
fn link_readable(shelf: &Shelf, text: &[u8], output: &mut [u8]) -> Result<Size, LinkRefusal>
    requires few { shelf.now.below ≤ word_limit }
    requires reads { Readable text.now }
    ensures { WroteLinked shelf.now.list.now shelf.now.words.now shelf.now.below text.now output.old result output.new }
{
    let mut sizes: Sizes = [None; MOST];
    let size = measure(shelf, text, &mut sizes);
    if Cell::LIMIT < size.cells as usize {
        return Err(LinkRefusal::Overfull);
    }
    if output.len() < size.length as usize {
        return Err(LinkRefusal::OutShort(size.length));
    }
    write(shelf, text, &sizes, output);
    Ok(size)
}

// LINK. The list's fault comes before the text's.
pub fn link(list: &[u8], text: &[u8], output: &mut [u8]) -> Result<Size, LinkRefusal>
    ensures { Links list.now text.now output.old result output.new }
{
    let mut words: Words = [NO_WORD; MOST];
    let shelf = check_list(list, &mut words)?;
    // Each list that links has one. Here that is proved.
    let stock = StockShelf { shelf };
    // With no room every item is past it. How many items there are does not matter before the text is linked.
    survey_text(text, 0)?;
    link_readable(&stock.shelf, text, output)
}
