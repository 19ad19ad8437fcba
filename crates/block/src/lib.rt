// The block form of a sheet, rows 1 and 2: blocks of 512 bytes, 128 little-endian words, the last of which checks the other 127.
#![tactic(auto)]

ghost use Rattle.std.specs.Prelude.{◌≡◌, ◌+◌, ◌%◌, ◌^◌, length};
ghost use Rattle.words.specs.Folds.{sum_of, all_of, stores};
ghost use Rattle.block.specs.Block.{word_of, block_count, check_ok, unpacked, shape_ok, least_fit, blocks_for, word_in, check_word, packed_word, block_byte, packed_blocks};

// How many whole blocks the bytes are, modulo 2^32.
#[tactic(auto, unfolding(crate::specs::Block::block_count))]
pub fn block_count(bytes: &[u8]) -> u32
    ensures { result ≡ block_count bytes.now % 2 ^ 32 }
{
    (bytes.len() / 512 % 4294967296) as u32
}

// A sum with the number of block k, counted from 0, added: the number counts from 1, and the sum is modulo 2^32.
fn with_number(sum: u32, k: u32) -> u32
    ensures { result ≡ (sum + (k + 1)) % 2 ^ 32 }
{
    sum.wrapping_add(k).wrapping_add(1)
}

// Whether block k, counted from 0, has the check word that it should have.
#[tactic(auto, unfolding(crate::specs::Block::check_ok, crate::specs::Block::block, crate::specs::Block::word_of))]
fn check_ok(bytes: &[u8], k: u32) -> bool
    ensures { result ≡ check_ok bytes.now k }
{
    let b = words::part(bytes, k as usize * 512, 512);
    let sum = words::sum_of(127, |j| words::le_word(b, j.wrapping_mul(4)));
    words::le_word(b, 508) == with_number(sum, k)
}

// Whether each of the first n blocks has the check word that it should have.
pub fn checks_ok(bytes: &[u8], n: u32) -> bool
    ensures { result ≡ all_of n (check_ok bytes.now) }
{
    words::all_of(n, |k| check_ok(bytes, k))
}

// A block's first 127 words.
#[tactic(auto, unfolding(crate::specs::Block::word_of))]
fn unpack_block(block: &[u8], out: &mut [u32])
    ensures { out.new ≡ stores 127 (word_of block.now) out.old }
{
    words::store_each(out, 127, |j| words::le_word(block, j.wrapping_mul(4)));
}

// The words of the first n blocks, one after the other, where there is room for them, and else nothing.
#[tactic(auto, using(crate::proofs::Laws::content_none, crate::proofs::Laws::content_turn, crate::proofs::Laws::unpacked_none))]
pub fn unpack(bytes: &[u8], n: u32, out: &mut [u32])
    ensures { out.new ≡ unpacked bytes.now n out.old }
{
    let count = n as usize;
    if out.len() < 127 * count {
        return;
    }
    for k in 0..count {
        let from = 127 * k;
        let end = from + 127;
        unpack_block(words::part(bytes, k * 512, 512), &mut out[from..end]);
    }
}

// Whether the bytes are some whole blocks, at most `limit`, and their words fit into `room` words.
#[tactic(auto, unfolding(crate::specs::Block::shape_ok))]
pub fn shape_ok(bytes: &[u8], room: usize, limit: u32) -> bool
    ensures { result ≡ shape_ok (length bytes.now) room limit }
{
    let len = bytes.len();
    let n = len / 512;
    len != 0 && len % 512 == 0 && n <= limit as usize && 127 * n <= room
}

// Row 3: whether n words, 127 a block, hold the content, and a block less would not.
#[tactic(auto, unfolding(crate::specs::Block::least_fit))]
pub fn least_fit(end: usize, n: usize) -> bool
    ensures { result ≡ least_fit end n }
{
    end <= n && n - end < 127
}

// How many blocks hold `end` words, modulo 2^32.
#[tactic(auto, unfolding(crate::specs::Block::blocks_for))]
pub fn blocks_for(end: usize) -> u32
    ensures { result ≡ blocks_for end % 2 ^ 32 }
{
    (end.div_ceil(127) % 4294967296) as u32
}

// The check word of block k of these words.
#[tactic(auto, unfolding(crate::specs::Block::check_word))]
fn check_word(ws: &[u32], k: u32) -> u32
    ensures { result ≡ check_word ws.now k }
{
    let from = 127 * k as usize;
    let sum = words::sum_of(127, |j| words::get_or(ws, from.wrapping_add(j), 0));
    with_number(sum, k)
}

// Word j of block k of these words, whose check word is this.
#[tactic(auto, unfolding(crate::specs::Block::packed_word))]
fn packed_word(ws: &[u32], k: u32, check: u32, j: usize) -> u32
    requires { check ≡ check_word ws.now k }
    ensures { result ≡ packed_word ws.now k j }
{
    if j < 127 {
        return words::get_or(ws, 127 * k as usize + j, 0);
    }
    check
}

// Block k of these words.
#[tactic(auto, unfolding(crate::specs::Block::block_byte))]
fn pack_block(ws: &[u32], k: u32, out: &mut [u8])
    ensures { out.new ≡ stores 512 (block_byte ws.now k) out.old }
{
    let check = check_word(ws, k);
    words::store_each(
        out,
        512,
        |i| words::byte_of(packed_word(ws, k, check, i / 4), i),
    );
}

// The first n blocks of these words, one after the other, where there is room for them, and else nothing.
#[tactic(auto, using(crate::proofs::PackLaws::bytes_none, crate::proofs::PackLaws::bytes_turn, crate::proofs::PackLaws::packed_none))]
pub fn pack(ws: &[u32], n: u32, out: &mut [u8])
    ensures { out.new ≡ packed_blocks ws.now n out.old }
{
    if out.len() / 512 < n as usize {
        return;
    }
    for k in 0..n {
        let from = 512 * k as usize;
        let end = from + 512;
        pack_block(ws, k, &mut out[from..end]);
    }
}
