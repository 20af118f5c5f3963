use fdp_relocation::OpenFault;

/// A flash on which no drive was opened, and why.
#[derive(Debug, Drop)]
pub struct NotLoaded<F> {
    pub flash: F,
    pub cause: OpenFault,
}
