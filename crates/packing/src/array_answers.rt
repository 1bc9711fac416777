// What a call on an array answers, packed: lowest first, refusal or 0 in 8, the leaf sum in 40, the place named by 8 in 16.
ghost use Rattle.std.specs.Prelude.{◌≡◌};
ghost use Rattle.array_decoder.specs.Calls.{array_leaves, array_number, array_place};
ghost use Rattle.packing.specs.Arrays.{pack_array};

use array_decoder::ArrayRefused;

fn pack(number: u8, leaves: usize, place: usize) -> u64
    ensures { result ≡ pack_array number leaves place }
{
    let low = number as u64 + (leaves % 1099511627776) as u64 * 256;
    low + (place % 65536) as u64 * 281474976710656
}

pub fn pack_array(answer: Result<usize, ArrayRefused>) -> u64
    ensures { result ≡ pack_array (array_number answer) (array_leaves answer) (array_place answer) }
{
    match answer {
        Ok(leaves) => pack(0, leaves, 0),
        Err(refused) => pack(
            refusals::number(refused.why),
            refused.leaves,
            refusals::place(refused.why),
        ),
    }
}
