// Call keys (document 01, "Call keys"): day, stop, planned second and block in 64 bits, packed and taken apart.
//
// Every function is proved and the crate assumes nothing. No public function has a `requires`: a field that is too
// large gets refusal 7.
#![tactic(auto)]

ghost use Rattle.std.specs.Prelude.{◌≡◌};
ghost use Rattle.callkey.specs.CallKeys.{said_by_packer, pack_says, said_by_unpacker, unpack_says};

use refusals::Refusal;

// The largest planned second, 29:59:59: a service day is thirty hours long, so a tram that runs after midnight still
// belongs to the day on which it left. The field's 17 bits would hold more.
const LAST_SECOND: u32 = 107_999;

// What a planned call is: a day, a stop, a second of the service day and the block that runs it.
#[derive(Clone, Copy)]
pub struct Fields {
    pub day: u32,
    pub stop: u32,
    pub second: u32,
    pub block: u32,
}

// The key of four fields, or refusal 7 where one is over its largest value.
#[tactic(auto, unfolding(crate::specs::CallKeys::pack_says))]
pub fn pack(day: u32, stop: u32, second: u32, block: u32) -> Result<u64, Refusal>
    ensures { said_by_packer result ≡ pack_says day stop second block }
{
    if 65535 < day || 65535 < stop || LAST_SECOND < second || 32767 < block {
        return Err(Refusal::Field);
    }
    let top = u64::from(day) * 0x1_0000_0000_0000 + u64::from(stop) * 0x1_0000_0000;
    Ok(top + u64::from(second) * 0x8000 + u64::from(block))
}

// The fields of a key, or refusal 7 where its second is too large: the other fields have no room to be.
#[tactic(auto, unfolding(crate::specs::CallKeys::unpack_says))]
pub fn unpack(key: u64) -> Result<Fields, Refusal>
    ensures { said_by_unpacker result ≡ unpack_says key }
{
    let day = key / 0x1_0000_0000_0000;
    let after_day = key % 0x1_0000_0000_0000;
    let stop = after_day / 0x1_0000_0000;
    let after_stop = after_day % 0x1_0000_0000;
    let second = (after_stop / 0x8000) as u32;
    let block = after_stop % 0x8000;
    if second > LAST_SECOND {
        return Err(Refusal::Field);
    }
    Ok(Fields {
        day: day as u32,
        stop: stop as u32,
        second,
        block: block as u32,
    })
}
