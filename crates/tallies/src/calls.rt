// The calls of the list, in the list's order, by the crate that runs their lines.
// Each has its name, the length of a line and the answer, of the crate that it is from.
use block_lines::BlockCall;
use factor_lines::FactorCall;
use fill_lines::FillCall;
use lines::line::Line;
use lines::pattern_lines::PatternCall;
use lines::vector_lines::VectorCall;
use plate_lines::MatrixCall;
use solver_lines::SolverCall;

#[derive(Clone, Copy, PartialEq, Eq)]
pub enum Call {
    Block(BlockCall),
    Vector(VectorCall),
    Pattern(PatternCall),
    Matrix(MatrixCall),
    Fill(FillCall),
    Factor(FactorCall),
    Solver(SolverCall),
}

impl Call {
    pub const ALL: [Call; 35] = [
        Call::Block(BlockCall::CheckVector),
        Call::Block(BlockCall::Apply),
        Call::Block(BlockCall::Product),
        Call::Block(BlockCall::Scale),
        Call::Block(BlockCall::Add),
        Call::Block(BlockCall::Subtract),
        Call::Block(BlockCall::AddBlock),
        Call::Block(BlockCall::SubtractBlock),
        Call::Block(BlockCall::Inverse),
        Call::Block(BlockCall::SquareRoot),
        Call::Vector(VectorCall::SetZero),
        Call::Vector(VectorCall::Copy),
        Call::Vector(VectorCall::AddScaledVector),
        Call::Vector(VectorCall::ScaleAndAddVec),
        Call::Vector(VectorCall::SetFixed),
        Call::Vector(VectorCall::SetFixDofToRhsVector),
        Call::Vector(VectorCall::Dot),
        Call::Pattern(PatternCall::CheckPattern),
        Call::Pattern(PatternCall::CheckEntries),
        Call::Pattern(PatternCall::CheckFactor),
        Call::Pattern(PatternCall::SortRow),
        Call::Matrix(MatrixCall::MultVec),
        Call::Matrix(MatrixCall::SetZero),
        Call::Matrix(MatrixCall::SetFixedBc),
        Call::Matrix(MatrixCall::Merge),
        Call::Matrix(MatrixCall::Csrdia),
        Call::Matrix(MatrixCall::Blkcsr),
        Call::Fill(FillCall::Ilu0),
        Call::Fill(FillCall::Full),
        Call::Fill(FillCall::Iluk),
        Call::Factor(FactorCall::CopyValue),
        Call::Factor(FactorCall::Decompose),
        Call::Factor(FactorCall::SolvePreconditioningVec),
        Call::Solver(SolverCall::ConjugateGradient),
        Call::Solver(SolverCall::PreconditionedConjugateGradient),
    ];

    pub fn name(self) -> &'static str {
        match self {
            Call::Block(call) => call.name(),
            Call::Vector(call) => call.name(),
            Call::Pattern(call) => call.name(),
            Call::Matrix(call) => call.name(),
            Call::Fill(call) => call.name(),
            Call::Factor(call) => call.name(),
            Call::Solver(call) => call.name(),
        }
    }

    pub fn named(name: &[u8]) -> Option<Call> {
        Call::ALL
            .iter()
            .copied()
            .find(|call| call.name().as_bytes() == name)
    }

    // How many words a line of the call has.
    pub fn words(self, dim: u32, line: &Line) -> usize {
        match self {
            Call::Block(call) => call.words(dim),
            Call::Vector(call) => call.form().words(line),
            Call::Pattern(call) => call.form().words(line),
            Call::Matrix(call) => call.form().words(line),
            Call::Fill(call) => call.form().words(line),
            Call::Factor(call) => call.form().words(line),
            Call::Solver(call) => call.words(line),
        }
    }

    // Whether the call answers as the original.
    pub fn agrees(self, dim: u32, line: &Line) -> bool {
        match self {
            Call::Block(call) => call.agrees(dim, line),
            Call::Vector(call) => call.agrees(dim, line),
            Call::Pattern(call) => call.agrees(line),
            Call::Matrix(call) => call.agrees(dim, line),
            Call::Fill(call) => call.agrees(line),
            Call::Factor(call) => call.agrees(dim, line),
            Call::Solver(call) => call.agrees(dim, line),
        }
    }
}
