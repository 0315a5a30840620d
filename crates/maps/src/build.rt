// The build of one map.
ghost use Rattle.items.specs.Inner.{items_in};
ghost use Rattle.maps.specs.Built.{Room, MapBuilt};

use counts::map::Map;
use items::source::Source;

// Builds the map from the items of the source to their values under the seed. Where the items hold a jam, the error is
// the size of the largest one.
pub fn build(source: &Source, seed: u64, cells: &mut [u16], work: &mut [u16]) -> Result<(), usize>
    requires { Room (items_in source.now) cells.old work.old }
    ensures { MapBuilt source.now.which source.now.rows.b seed source.now.rows.keys.now cells.old work.old
        result cells.new work.new }
{
    let t = source.count();
    let m = cells::segment_size(t);
    let mixed = words::hash::mix_seed(seed);
    let r = words::remainder::reciprocal(m as u64);
    let map = Map {
        source: *source,
        mixed,
        m,
        r,
        t,
    };
    cells::clear(cells, 3 * m, 0);
    let n = peels::peel_all(&map, work);
    let answer = if n == t {
        fills::fill_all(&map, cells, work);
        Ok(())
    } else {
        Err(t - n)
    };
    cells::clear(work, 6 * m + 2 * t, 0);
    answer
}
