// The hash of symbol names.
ghost use Rattle.std.specs.Prelude.{◌≡◌};
ghost use Rattle.index_chains.specs.Hash.{hash_step, hash_of};

// The four highest bits of a word.
const HIGH_BITS: u32 = 0xF000_0000;

// The hash after one more byte.
fn hash_step(hash: u32, byte: u8) -> u32
    ensures { result ≡ hash_step hash byte }
{
    let sum = (hash << 4).wrapping_add(u32::from(byte));
    let high = sum & HIGH_BITS;
    let mixed = if high == 0 { sum } else { sum ^ (high >> 24) };
    mixed & !high
}

/// The hash of a symbol's name, as the System V gABI gives it for the hash table of an object file.
pub fn symbol_hash(name: &[u8]) -> u32
    ensures { result ≡ hash_of name.now }
{
    name.iter().fold(0, |hash, byte| hash_step(hash, *byte))
}
