ghost use Rattle.fdp_rules.specs.Sites.{ascends, last_run};
ghost use Rattle.fdp_tables.specs.Copies.{copy_of};
ghost use Rattle.std.specs.Prelude.{◌≡◌, ◌<◌, ◌==◌, ◌&&◌, nat_lt, List, [], map};

use fdp_base::Spot;

/// The longest run at the end of these copies whose old pages lie in one unit and ascend.
#[tactic(auto, using(crate::proofs::Walks::shortening_next, crate::proofs::Walks::shortening_found, std::proofs::lemmas::List::take_rest, crate::proofs::Walks::shortening_end))]
pub fn last_run(copies: &[(Spot, Spot)]) -> &[(Spot, Spot)]
    ensures { map copy_of result.now ≡ last_run (map copy_of copies.now) }
{
    for start in 0..copies.len() {
        if ascends(&copies[start..]) {
            return &copies[start..];
        }
    }
    &[]
}

/// Whether the old pages of these copies lie in one unit and ascend.
#[tactic(auto, using(crate::proofs::Walks::ascending_next, crate::proofs::Walks::ascending_fails, crate::proofs::Walks::ascending_end))]
fn ascends(copies: &[(Spot, Spot)]) -> bool
    ensures { result ≡ ascends (map copy_of copies.now) }
{
    for next in 1..copies.len() {
        if !follows(copies[next - 1].0, copies[next].0) {
            return false;
        }
    }
    true
}

/// Whether a page lies behind another in its unit.
fn follows(first: Spot, second: Spot) -> bool
    ensures { result ≡ ((first.unit == second.unit) && nat_lt first.page second.page) }
{
    first.unit == second.unit && first.page < second.page
}
