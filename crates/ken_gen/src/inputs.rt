// The inputs of a script.
ghost use Rattle.std.specs.Prelude.{◌≡◌, ◌<◌, decimal, IfOk, OnOk};
ghost use Rattle.ken_gen.specs.Draws.{drawn, past};
ghost use Rattle.ken_gen.specs.Inputs.{input_at, past_input, inputs_from, past_inputs};

use crate::draws::{draw, draw_node};
use ken_model::{Input, Octets};
use ken_num::{Lcg, put_decimal};
use std::alloc::{AllocError, Global};

/// The numbers in texts are below this.
const NUMBERS: u64 = 1000;

/// The decimal text of a number.
fn draw_text(alloc: Global, generator: &mut Lcg) -> Result<Octets, AllocError>
    ensures text { IfOk result (λ text. text ≡ decimal (drawn NUMBERS generator.old)) }
    ensures state { OnOk result (generator.new ≡ past generator.old) }
{
    let mut text = Vec::new(alloc);
    put_decimal(&mut text, draw(generator, NUMBERS))?;
    Ok(Octets::new(text))
}

/// An input: its node, and then its text.
#[tactic(auto, unfolding(crate::specs::Inputs::input_at, crate::specs::Inputs::past_input))]
fn draw_input(alloc: Global, generator: &mut Lcg, nodes: u8) -> Result<Input, AllocError>
    requires { 0 < nodes }
    ensures input { IfOk result (λ input. input ≡ input_at nodes generator.old) }
    ensures state { OnOk result (generator.new ≡ past_input generator.old) }
{
    Ok(Input {
        node: draw_node(generator, nodes),
        text: draw_text(alloc, generator)?,
    })
}

/// So many inputs.
#[tactic(auto, using(crate::proofs::Steps::inputs_on, crate::proofs::Steps::inputs_done, crate::proofs::Steps::past_inputs_on, crate::proofs::Steps::past_inputs_done))]
pub(crate) fn draw_inputs(
    alloc: Global,
    generator: &mut Lcg,
    nodes: u8,
    count: u16,
) -> Result<Vec<Input>, AllocError>
    requires { 0 < nodes }
    ensures inputs { IfOk result (λ inputs. inputs.items ≡ inputs_from nodes count generator.old) }
    ensures state { OnOk result (generator.new ≡ past_inputs count generator.old) }
{
    let mut inputs = Vec::new(alloc);
    for _made in 0..count {
        inputs.push(draw_input(alloc, generator, nodes)?)?;
    }
    Ok(inputs)
}
