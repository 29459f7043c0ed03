// The engines, in the report's order, and their names there.
ghost use Rattle.std.specs.Prelude.{◌≡◌, ◌+◌, ◌≤◌, [], ◌∷◌, ◌++◌, length, get_or};
ghost use Rattle.engines.specs.declared.engine.Engine.TheVariants.{Hybrid};
ghost use Rattle.std.proofs.lemmas.List.Edits.{sets};
ghost use Rattle.engines.specs.Engines.{the_six, name_of};

use lent::{put_byte, put_bytes};

#[derive(Clone, Copy, Debug, PartialEq, Eq)]
pub enum Engine {
    Brute,
    Kmp,
    Bm,
    Sunday,
    ShiftAnd,
    Hybrid,
}

impl Engine {
    // How many there are.
    pub const COUNT: usize = 6;

    // All of them, in the report's order.
    pub const ALL: [Engine; Engine::COUNT] = [
        Engine::Brute,
        Engine::Kmp,
        Engine::Bm,
        Engine::Sunday,
        Engine::ShiftAnd,
        Engine::Hybrid,
    ];

    // The one at an index of the report's order; Hybrid at any index past it.
    pub fn at(i: usize) -> Engine
        ensures { result ≡ get_or the_six i Hybrid }
    {
        match i {
            0 => Engine::Brute,
            1 => Engine::Kmp,
            2 => Engine::Bm,
            3 => Engine::Sunday,
            4 => Engine::ShiftAnd,
            _ => Engine::Hybrid,
        }
    }

    // Its name, without the space that stands after it in the report.
    pub fn name(self) -> &'static str
        ensures { result.now ++ (32 ∷ []) ≡ name_of self }
    {
        match self {
            Engine::Brute => "brute",
            Engine::Kmp => "kmp",
            Engine::Bm => "bm",
            Engine::Sunday => "sunday",
            Engine::ShiftAnd => "shiftand",
            Engine::Hybrid => "hybrid",
        }
    }
}

// That this is the order of the definitions.
fn in_order() -> [Engine; Engine::COUNT]
    ensures { result ≡ the_six }
{
    Engine::ALL
}

// How long the name is, with the space after it.
pub fn name_len(e: Engine) -> usize
    ensures { result ≡ length (name_of e) }
{
    e.name().len() + 1
}

// The name, with the space after it, at a place; answers the place after it.
pub fn put_name(out: &mut [u8], at: usize, e: Engine) -> usize
    requires { at + length (name_of e) ≤ length out.old }
    ensures { (result ≡ at + length (name_of e)) × (out.new ≡ sets out.old at (name_of e)) }
{
    let end = put_bytes(out, at, e.name().as_bytes());
    put_byte(out, end, b' ')
}
