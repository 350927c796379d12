// The functions of include/mapper.h, exported for C: each calls the function of `mapper` that has its name, and states its clauses again.
#![tactic(auto)]

ghost use Rattle.std.specs.Prelude.{◌≡◌};
ghost use Rattle.build.specs.Build.{built_of, grid_after};
ghost use Rattle.read.specs.Read.{Reads};
ghost use Rattle.read.specs.Equation.{read_of, payload_after};
ghost use Rattle.mapper.specs.Calls.{check_answer_of, grid_length_of, payload_length_of, kind_count_of, owner_answer_of, sample_answer_of, in_c};

#[unsafe(no_mangle)]
pub extern "C" fn mapper_check(plan: &[u8]) -> i64
    ensures { result ≡ in_c (check_answer_of plan.now) }
{
    mapper::mapper_check(plan)
}

#[unsafe(no_mangle)]
pub extern "C" fn mapper_grid_len(plan: &[u8]) -> i64
    ensures { result ≡ in_c (grid_length_of plan.now) }
{
    mapper::mapper_grid_len(plan)
}

#[unsafe(no_mangle)]
pub extern "C" fn mapper_payload_len(plan: &[u8]) -> i64
    ensures { result ≡ in_c (payload_length_of plan.now) }
{
    mapper::mapper_payload_len(plan)
}

#[unsafe(no_mangle)]
pub extern "C" fn mapper_count(plan: &[u8], kind: usize) -> i64
    ensures { result ≡ in_c (kind_count_of plan.now kind) }
{
    mapper::mapper_count(plan, kind)
}

#[unsafe(no_mangle)]
pub extern "C" fn mapper_build(plan: &[u8], payload: &[u8], grid: &mut [u8]) -> i64
    ensures { (result ≡ in_c (built_of plan.now payload.now grid.old))
        × (grid.new ≡ grid_after plan.now payload.now grid.old) }
{
    mapper::mapper_build(plan, payload, grid)
}

#[unsafe(no_mangle)]
pub extern "C" fn mapper_read(plan: &[u8], grid: &[u8], payload: &mut [u8]) -> i64
    ensures { (result ≡ in_c (read_of plan.now grid.now payload.old))
        × (payload.new ≡ payload_after plan.now grid.now payload.old)
        × Reads plan.now grid.now payload.old (read_of plan.now grid.now payload.old) payload.new }
{
    mapper::mapper_read(plan, grid, payload)
}

#[unsafe(no_mangle)]
pub extern "C" fn mapper_owner(plan: &[u8], s: usize, k: usize, port: usize) -> i64
    ensures { result ≡ in_c (owner_answer_of plan.now s k port) }
{
    mapper::mapper_owner(plan, s, k, port)
}

// The kind of an element's sample: 0 silence, 1 phase, 2 a pair of f32.
#[unsafe(no_mangle)]
pub extern "C" fn mapper_sample_kind(byte: u8, i: u8, j: u8) -> i64
    ensures { result ≡ in_c (sample_answer_of 0 byte i j) }
{
    mapper::mapper_sample_kind(byte, i, j)
}

// The phase, or the bits of the f32 of I; 0 for silence.
#[unsafe(no_mangle)]
pub extern "C" fn mapper_sample_i(byte: u8, i: u8, j: u8) -> i64
    ensures { result ≡ in_c (sample_answer_of 1 byte i j) }
{
    mapper::mapper_sample_i(byte, i, j)
}

// The bits of the f32 of J; 0 for silence and for a phase.
#[unsafe(no_mangle)]
pub extern "C" fn mapper_sample_j(byte: u8, i: u8, j: u8) -> i64
    ensures { result ≡ in_c (sample_answer_of 2 byte i j) }
{
    mapper::mapper_sample_j(byte, i, j)
}
