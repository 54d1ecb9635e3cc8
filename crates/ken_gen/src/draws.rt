// Single draws of the generator.
ghost use Rattle.std.specs.Prelude.{◌≡◌, ◌<◌};
ghost use Rattle.ken_gen.specs.Draws.{drawn, past};

use ken_num::Lcg;

/// The next answer modulo `bound`.
#[tactic(auto, unfolding(crate::specs::Draws::drawn, crate::specs::Draws::past))]
pub(crate) fn draw(generator: &mut Lcg, bound: u64) -> u64
    requires { 0 < bound }
    ensures below { result < bound }
    ensures answer { result ≡ drawn bound generator.old }
    ensures state { generator.new ≡ past generator.old }
{
    generator.next() % bound
}

/// One of the nodes.
pub(crate) fn draw_node(generator: &mut Lcg, nodes: u8) -> u8
    requires { 0 < nodes }
    ensures answer { result ≡ drawn nodes generator.old }
    ensures state { generator.new ≡ past generator.old }
{
    draw(generator, u64::from(nodes)) as u8
}
