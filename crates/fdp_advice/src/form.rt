use std::fmt;

/// Writes a form in which these parts stand, in their order, where it has `{}`. A `write!` of its own at each place would say the same, and cost the
/// proof of each place some seconds.
pub fn write_form<W: fmt::Write>(
    f: &mut fmt::Formatter<W>,
    form: &str,
    parts: &[&str],
) -> fmt::Result {
    let mut rest = form;
    for part in parts {
        let Some((front, behind)) = rest.split_once("{}") else {
            return f.write_str(rest);
        };
        f.write_str(front)?;
        f.write_str(part)?;
        rest = behind;
    }
    f.write_str(rest)
}

/// Writes behind the name of a text that it has more than so many bytes, and what to do.
pub fn write_longer<W: fmt::Write>(
    f: &mut fmt::Formatter<W>,
    most: u64,
    mend: &str,
) -> fmt::Result {
    write!(f, " has more than {most} bytes: {mend}")
}
