// Document 01's starred permutations, called and compared; that each comparison holds is proved from the contracts and the table.
use check::expect;
use verdicts::checked_number;

// Permutation 2 0 1 has inverse 1 2 0.
pub fn inverse() {
    let mut list = [7u32; 3];
    let reply = permutation::from_orig_to_perm(&[2, 0, 1], &mut list);
    expect(checked_number(reply) == 0);
    expect(list[0] == 1);
    expect(list[1] == 2);
    expect(list[2] == 0);
    expect(checked_number(permutation::validate(&[2, 0, 1], &[1, 2, 0])) == 0);
}

// 0 0 9 gives 11.
pub fn repeated() {
    let mut list = [7u32; 3];
    let reply = permutation::from_orig_to_perm(&[0, 0, 9], &mut list);
    expect(checked_number(reply) == 11);
    expect(list[0] == 7);
    expect(list[1] == 7);
    expect(list[2] == 7);
}
