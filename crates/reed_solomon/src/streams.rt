// The codes of the streams of the modulation and of the transmitter information.
use crate::code::ReedSolomon;

// RS(4,2): two symbols and two check symbols; one wrong symbol is mended.
pub type MisReedSolomon = ReedSolomon<2, 2, 4>;

// RS(29,9): nine symbols and twenty check symbols; one wrong symbol is mended.
pub type TisReedSolomon = ReedSolomon<20, 9, 29>;

impl Default for MisReedSolomon {
    ghost use Rattle.std.specs.Prelude.{◌≡◌};
    ghost use Rattle.reed_solomon.specs.Generators.{generator_of};

    ghost is_default = { λ code. code.generator ≡ generator_of 2 };

    // (X + α)(X + α^2) = X^2 + 6·X + 8
    #[tactic(auto, unfolding(crate::specs::Field::alpha, crate::specs::Field::raised, crate::specs::Words::added, crate::specs::Generators::generator_of))]
    fn default() -> Self {
        ReedSolomon { generator: [6, 8] }
    }
}

impl Default for TisReedSolomon {
    ghost use Rattle.std.specs.Prelude.{◌≡◌};
    ghost use Rattle.reed_solomon.specs.Generators.{generator_of};

    ghost is_default = { λ code. code.generator ≡ generator_of 20 };

    // (X + α)(X + α^2)…(X + α^20)
    #[tactic(auto, unfolding(crate::specs::Field::alpha, crate::specs::Field::raised, crate::specs::Words::added, crate::specs::Generators::generator_of))]
    fn default() -> Self {
        ReedSolomon {
            generator: [
                37, 118, 58, 76, 24, 59, 127, 39, 90, 39, 101, 98, 48, 29, 50, 38, 41, 16, 56, 66,
            ],
        }
    }
}
