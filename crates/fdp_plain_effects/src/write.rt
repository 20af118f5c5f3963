ghost use Rattle.fdp_base.specs.Numbers.{is_among};
ghost use Rattle.fdp_base.specs.Pattern.{HasBlock};
ghost use Rattle.fdp_base.specs.declared.command.Command.TheVariants as commands;
ghost use Rattle.fdp_base.specs.declared.payload.Payload.{Payload};
ghost use Rattle.fdp_rules.specs.Effect.{effect_of};
ghost use Rattle.fdp_rules.specs.PlainState.{Going};
ghost use Rattle.fdp_rules.specs.Room.{size_of};
ghost use Rattle.fdp_tables.specs.Spaces.{AreMade, block_in, size_in, written_block};
ghost use Rattle.fdp_tables.specs.State.{block_of, going_of, namespace_of, plain_of, row};
ghost use Rattle.std.specs.Prelude.{◌≡◌, ℕ, ◌+◌, ◌-◌, ◌%◌, ◌<◌, ◌≤◌, if◌then◌else◌, ◌==◌, ◌&&◌, Some, length, option_map, IfOk};

use fdp_base::{Bytes, Payload};
use fdp_tables::{Blocks, Kept, KeptBlock, KeptGoing, KeptPage, MadeBlock, Space};
use std::alloc::{AllocError, Global};

/// The blocks of a write, which were made before, stand in the namespace from an address on.
fn put(kept: &mut Kept, nsid: u32, slba: usize, made: Vec<Option<MadeBlock>>)
    requires there { nsid < length kept.old.spaces.items }
    requires room { slba + length made.items ≤ size_of (plain_of kept.old) nsid }
    ensures state { plain_of kept.new ≡ record (plain_of kept.old) { blocks = λ n lba. if n == nsid && is_among slba (length made.items) lba then option_map block_of (row made.items (lba - slba)) else (plain_of kept.old).blocks n lba } }
    ensures rest { kept.new ≡ record kept.old { spaces = kept.new.spaces } }
    ensures rows { length kept.new.spaces.items ≡ length kept.old.spaces.items }
{
    put_in_space(&mut kept.spaces[nsid as usize], slba, made);
}

/// The blocks of the write that is going in a queue, which were made before, stand in the namespace.
pub(crate) fn write_blocks(kept: &mut Kept, nsid: u32, slba: u64, made: Vec<Option<MadeBlock>>)
    requires there { nsid < length kept.old.spaces.items }
    requires room { slba + length made.items ≤ size_of (plain_of kept.old) nsid }
    ensures state { (queue dtype dspec count : ℕ) (payload : Payload) (g : Going) → (plain_of kept.old).going queue ≡ Some g → AreMade kept.old.config.block payload g count made.items → plain_of kept.new ≡ effect_of kept.old.config (plain_of kept.old) queue (commands.Write (record { nsid = nsid; slba = slba; count = count; dtype = dtype; dspec = dspec; payload = payload })) }
    ensures rest { kept.new ≡ record kept.old { spaces = kept.new.spaces } }
    ensures rows { length kept.new.spaces.items ≡ length kept.old.spaces.items }
{
    put(kept, nsid, slba as usize, made);
}

fn put_in_space(space: &mut Option<Space>, slba: usize, made: Vec<Option<MadeBlock>>)
    requires { slba + length made.items ≤ size_in space.old }
    ensures namespace { option_map namespace_of space.new ≡ option_map namespace_of space.old }
    ensures blocks { (lba : ℕ) → block_in space.new lba ≡ (if is_among slba (length made.items) lba then option_map block_of (row made.items (lba - slba)) else block_in space.old lba) }
{
    if let Some(space) = space {
        put_blocks(&mut space.blocks, slba, made);
    }
}

/// The blocks that were made stand from an address on.
#[tactic(auto, using(crate::proofs::Putting::putting_start, crate::proofs::Putting::putting_next, crate::proofs::Putting::putting_end))]
fn put_blocks(blocks: &mut Blocks, slba: usize, mut made: Vec<Option<MadeBlock>>)
    requires { slba + length made.items ≤ length blocks.old }
    ensures size { length blocks.new ≡ length blocks.old }
    ensures rows { (lba : ℕ) → row blocks.new lba ≡ (if is_among slba (length made.items) lba then row made.items (lba - slba) else row blocks.old lba) }
{
    let _places = blocks.len(); // proof: as many as a number of their kind can say
    while let Some(block) = made.pop() {
        let place = slba + made.len();
        blocks.put(place, block);
    }
}

/// The blocks of a going write.
pub(crate) fn make_blocks(
    alloc: Global,
    block: u32,
    payload: &Payload,
    count: u32,
    going: &KeptGoing,
) -> Result<Vec<Option<MadeBlock>>, AllocError>
    requires whole { block % 4 ≡ 0 }
    requires bytes { (index : ℕ) → index < count → HasBlock block payload.now index }
    ensures { IfOk result (λ made. AreMade block payload.now (going_of going.now) count made.items) }
{
    let mut made = Vec::new(alloc);
    for index in 0..count {
        made.push(Some(make_block(alloc, block, payload, index, going)?))?;
    }
    Ok(made)
}

/// Block `index` of a going write.
fn make_block(
    alloc: Global,
    block: u32,
    payload: &Payload,
    index: u32,
    going: &KeptGoing,
) -> Result<MadeBlock, AllocError>
    requires whole { block % 4 ≡ 0 }
    requires bytes { HasBlock block payload.now index }
    ensures { IfOk result (λ made. block_of made ≡ written_block block payload.now (going_of going.now) index) }
{
    let mut bytes = zeros(alloc, block)?;
    payload.fill(index, bytes.as_mut_slice());
    MadeBlock::new(
        alloc,
        KeptBlock {
            bytes: Bytes::from_vec(bytes),
            rg: going.rg,
            ruh: going.ruh,
            page: KeptPage::Written {
                ticket: going.ticket,
                index,
            },
        },
    )
}

fn zeros(alloc: Global, block: u32) -> Result<Vec<u8>, AllocError>
    ensures { IfOk result (λ bytes. length bytes.items ≡ block) }
{
    let mut bytes = Vec::new(alloc);
    bytes.resize(block as usize, 0)?;
    Ok(bytes)
}
