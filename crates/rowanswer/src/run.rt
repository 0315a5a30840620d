// What rowcheck prints of an input, from the text to the text.
ghost use Rattle.std.specs.Prelude.{◌≡◌, ◌≤◌, length};
ghost use Rattle.io.specs.Counts.{IsPrefixLen};
ghost use Rattle.refusals.specs.Numbers.{number};
ghost use Rattle.rowoutput.specs.Output.{refused_text, jam_text};
ghost use Rattle.rowanswer.specs.Answers.{answered, TableText, RowcheckText, Shows};
ghost use Rattle.rowanswer.specs.Inner.{ShownWhereRoom, ShowsWhereRoom};

use asks::indexes::Indexes;
use index::{Refusal, Unbuilt};
use rowinput::read_input;
use rowoutput::{write_head, write_jam, write_refusal};
use seeds::first_seed;

// The refusal at the start of `out`, and how many bytes.
fn refuse(out: &mut [u8], refusal: Refusal) -> usize
    ensures { ShownWhereRoom (refused_text (number refusal)) out.old result out.new }
{
    write_refusal(out, 0, refusal).unwrap_or(0)
}

// The same of a jam: refusal 5, and the size.
fn refuse_jam(out: &mut [u8], size: usize) -> usize
    ensures { ShownWhereRoom (jam_text size) out.old result out.new }
{
    write_jam(out, 0, size).unwrap_or(0)
}

// The head line and the lines of all asks.
fn print_answers(indexes: &Indexes, asks: &[u64], out: &mut [u8]) -> usize
    requires { length indexes.now.keys.now ≤ 2048 }
    ensures { ShownWhereRoom (answered indexes.now.keys.now asks.now)
        out.old result out.new }
{
    let Some(i) = write_head(out, 0, indexes.keys.len()) else {
        return 0;
    };
    indexes.answer_asks(asks, out, i).unwrap_or(0)
}

// The answers by the first seed that is taken, in stores as long as 2,048 keys can want; or the refusal of the table, or
// the jam under the last seed. The arrays are named one by one, as `first_seed` takes them.
fn answer_in(
    keys: &[u64],
    b: usize,
    asks: &[u64],
    cells: &mut [u16; 5178],
    handles: &mut [u16; 2589],
    left: &mut [u16; 2048],
    right: &mut [u16; 2048],
    work: &mut [u16; 9274],
    lengths: &mut [u8; 2048],
    out: &mut [u8],
) -> usize
    requires { length keys.now ≤ 2048 }
    ensures { ShowsWhereRoom (TableText keys.now b asks.now)
        out.old result out.new }
{
    match first_seed(keys, b, cells, handles, left, right, work, lengths) {
        Ok(seed) => {
            // No run is withdrawn here: a byte of zero is lent for each row.
            let bytes = [0u8; 2048];
            let indexes = Indexes {
                keys,
                bytes: &bytes,
                b,
                seed,
                cells,
                handles,
                left,
                right,
                lengths,
            };
            print_answers(&indexes, asks, out)
        }
        Err(Unbuilt::Refused(refusal)) => refuse(out, refusal),
        Err(Unbuilt::Jammed(jam)) => refuse_jam(out, jam.size),
    }
}

// The same, in stores of its own.
fn answer_table(keys: &[u64], b: usize, asks: &[u64], out: &mut [u8]) -> usize
    requires { length keys.now ≤ 2048 }
    ensures { ShowsWhereRoom (TableText keys.now b asks.now)
        out.old result out.new }
{
    let mut cells = [0u16; 5178];
    let mut handles = [0u16; 2589];
    let mut left = [0u16; 2048];
    let mut right = [0u16; 2048];
    let mut work = [0u16; 9274];
    let mut lengths = [0u8; 2048];
    answer_in(
        keys,
        b,
        asks,
        &mut cells,
        &mut handles,
        &mut left,
        &mut right,
        &mut work,
        &mut lengths,
        out,
    )
}

// The input is read into the lent slices, and answered.
fn answer_read(input: &[u8], keys: &mut [u64], asks: &mut [u64], out: &mut [u8]) -> usize
    requires { (length keys.old ≡ 2048) × (length asks.old ≡ 512) }
    ensures { ShowsWhereRoom (RowcheckText input.now) out.old result out.new }
{
    match read_input(input, keys, asks) {
        Ok(input) => answer_table(&keys[..input.keys], input.bucket, &asks[..input.asks], out),
        Err(refusal) => refuse(out, refusal),
    }
}

// The same, with room for as many keys and asks as document 01 allows.
fn answer_lent(input: &[u8], keys: &mut [u64; 2048], asks: &mut [u64; 512], out: &mut [u8]) -> usize
    ensures { ShowsWhereRoom (RowcheckText input.now) out.old result out.new }
{
    answer_read(input, keys, asks, out)
}

// What rowcheck prints of the input, at the start of `out`, and how many bytes. No text is longer than `out`
// (specs/Answers, `LongestText`).
pub fn answer(input: &[u8], out: &mut [u8; 65536]) -> usize
    ensures counts { IsPrefixLen result out.new }
    ensures says { Shows (RowcheckText input.now) out.old result out.new }
{
    let mut keys = [0u64; 2048];
    let mut asks = [0u64; 512];
    answer_lent(input, &mut keys, &mut asks, out)
}
