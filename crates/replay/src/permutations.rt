// Permutations: checked, inverted, applied.
use answer_text::answers::{put_checked, put_marks, put_output};
use answer_text::put_words;
use case_lists::lent::{lent_list, lent_marks, lent_output};
use case_lists::{ROOM, input, list_of, permutation};
use case_text::items::{Bytes, Words};
use permutation::{
    from_orig_to_perm, permute_factor_to_original, permute_factor_to_original_marked, validate,
};
use std::io;
use std::io::Write;

// Kind permvalidate.
pub fn validation(out: &mut impl Write, text: &[u8]) -> io::Result<()> {
    let mut orig_to_perm = [0u32; ROOM];
    let mut perm_to_orig = [0u32; ROOM];
    put_checked(
        out,
        validate(
            permutation(text, &mut orig_to_perm),
            list_of::<Words>(text, b"\ninv ", &mut perm_to_orig),
        ),
    )
}

// Kind permfrom; where the case lends no list, one of 7777.
pub fn inversion(out: &mut impl Write, text: &[u8]) -> io::Result<()> {
    let mut orig_to_perm = [0u32; ROOM];
    let mut perm_to_orig = [7777u32; ROOM];
    let perm_to_orig = lent_list::<Words>(text, b"\nlinv ", &mut perm_to_orig);
    put_checked(
        out,
        from_orig_to_perm(permutation(text, &mut orig_to_perm), perm_to_orig),
    )?;
    put_words(out, b"inv ", perm_to_orig)
}

// Kind permapply; where the case lends no output, one of 7777.
pub fn application(out: &mut impl Write, text: &[u8]) -> io::Result<()> {
    let mut orig_to_perm = [0u32; ROOM];
    let mut values = [0.0; ROOM];
    let mut output = [7777.0; ROOM];
    let output = lent_output(text, &mut output);
    put_checked(
        out,
        permute_factor_to_original(
            permutation(text, &mut orig_to_perm),
            input(text, &mut values),
            output,
        ),
    )?;
    put_output(out, output)
}

// Kind permmarked; where the case lends no lists, lists of 7777 and 77.
pub fn marked_application(out: &mut impl Write, text: &[u8]) -> io::Result<()> {
    let mut orig_to_perm = [0u32; ROOM];
    let mut values = [0.0; ROOM];
    let mut marks = [0u8; ROOM];
    let mut output = [7777.0; ROOM];
    let mut output_marks = [77u8; ROOM];
    let output = lent_output(text, &mut output);
    let output_marks = lent_marks(text, &mut output_marks);
    put_checked(
        out,
        permute_factor_to_original_marked(
            permutation(text, &mut orig_to_perm),
            input(text, &mut values),
            list_of::<Bytes>(text, b"\nmarks ", &mut marks),
            output,
            output_marks,
        ),
    )?;
    put_output(out, output)?;
    put_marks(out, output_marks)
}
