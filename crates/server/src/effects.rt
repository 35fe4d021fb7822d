// What a write or a report does to its phy, carried out on the words.
ghost use Rattle.std.specs.Prelude.{◌≡◌};
ghost use Rattle.model.specs.Counting.{originate_if};
ghost use Rattle.model.specs.Store.{carried_out};
ghost use Rattle.server.specs.Stored.{if_there, stored_over, Narrow};
ghost use Rattle.words.specs.Words.{shelf_of, laid_over};

use counters::counts::originate;
use model::{Effect, Monitor};
use words::WORDS;
use words::read::changes;
use words::store::{put, store_entry};

// "Change also moves the change count the same way.": the change count after an effect that originated Change, or did not
fn changes_after(words: &[u32; WORDS], change: bool) -> u16
    ensures { result ≡ originate_if change (shelf_of words.now).changes }
{
    let count = changes(words);
    if change { originate(count) } else { count }
}

// #101: stores a phy's monitor as it stands, if it is one of those to be stored.
#[tactic(auto, unfolding(crate::specs::Stored::if_there))]
fn store_if(words: &mut [u32; WORDS], phy: u8, stored: Option<Monitor>)
    ensures kept { words.new ≡ stored_over words.old (if_there phy stored) }
    ensures narrow { Narrow stored }
{
    if let Some(monitor) = stored {
        store_entry(words, phy, monitor);
    }
}

// A report or a link change: the phy is put, "Change also moves the change count the same way", and then what is stored (#101) is
// stored in monitor order.
#[inline(always)]
pub(crate) fn carry_out(words: &mut [u32; WORDS], phy: u8, done: Effect)
    ensures { words.new
        ≡ laid_over words.old (carried_out (shelf_of words.old) phy done) }
{
    let count = changes_after(words, done.change);
    put(words, phy.into(), done.phy, count);
    let [first, second, third, fourth] = done.stored;
    store_if(words, phy, first);
    store_if(words, phy, second);
    store_if(words, phy, third);
    store_if(words, phy, fourth);
}

// A write: the same, but stored first, so that less is held over the steps. The words come to the same (`Carrying`): in this order a 93h
// takes less stack than firmware/kinubarsil.h says, and in the other a report does.
#[inline(always)]
pub(crate) fn carry_out_write(words: &mut [u32; WORDS], phy: u8, done: Effect)
    ensures { words.new
        ≡ laid_over words.old (carried_out (shelf_of words.old) phy done) }
{
    let count = changes_after(words, done.change);
    let stored = done.stored;
    store_if(words, phy, stored[0]);
    store_if(words, phy, stored[1]);
    store_if(words, phy, stored[2]);
    store_if(words, phy, stored[3]);
    put(words, phy.into(), done.phy, count);
}
