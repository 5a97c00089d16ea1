// Lists written from their start.
ghost use Rattle.std.specs.Prelude.{◌≡◌, ◌*◌, ◌%◌, ◌≤◌, length, get_or};
ghost use Rattle.lists.specs.Filled.{Filled};

// The correction of the first n qubits: a qubit's flip with all live guesses 0 is the constant of its form, in the first word.
pub fn write_flips(n: usize, forms: &[u64], correction: &mut [u8])
    requires forms { 4 * n ≤ length forms.now }
    requires correction { n ≤ length correction.old }
    ensures { Filled (λ q. get_or forms.now (4 * q) 0 % 2) n correction.old correction.new }
{
    for q in 0..n {
        correction[q] = (forms[4 * q] % 2) as u8;
    }
}
