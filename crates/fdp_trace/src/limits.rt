/// Blocks or dwords that a line may ask for.
pub const MOST_AMOUNT: u64 = 65_536;
