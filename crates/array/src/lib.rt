// The coding array and the output array of clause 8.4: definitions in specs/, laws in proofs/; a variant's width and the lengths of its parts.
#![tactic(auto)]

ghost use Rattle.std.specs.Prelude.{◌≡◌};
ghost use Rattle.array.specs.CodingArray.{width_of, Wide};
ghost use Rattle.array.specs.PartLengths.{parts_refusal};
ghost use Rattle.refusals.specs.Refusals.{outcome_number};

use refusals::Refusal;

// A row's information width: 226 beside fourteen check bytes, 235 beside five. A bool and no enum of the variants: `width_of`, over which all is stated, takes one.
pub fn width(fourteen: bool) -> usize
    ensures { (result ≡ width_of fourteen) × (Wide result) }
{
    if fourteen { 226 } else { 235 }
}

// The lengths one by one, in the order in which `parts_refusal` has them. Refused where the output array or a part beside the information has not the length that the width calls for.
pub fn lengths(
    fourteen: bool,
    output: usize,
    management: usize,
    supervision: usize,
    synchronising: usize,
    signalling: usize,
    check: usize,
) -> Result<(), Refusal>
    ensures { outcome_number result ≡ parts_refusal (width_of fourteen) output management supervision synchronising signalling check }
{
    let lent = [
        output,
        management,
        supervision,
        synchronising,
        signalling,
        check,
    ];
    if lent != [6144, 24, 24, 192, 192, 24 * (240 - width(fourteen))] {
        return Err(Refusal::Length);
    }
    Ok(())
}
