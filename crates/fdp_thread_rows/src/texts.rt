use std::alloc::{AllocError, Global};

/// A trace that is written line by line.
#[derive(Drop)]
pub struct Trace {
    pub text: String,
}

impl Trace {
    pub fn new(alloc: Global) -> Trace {
        Trace {
            text: String::new(alloc),
        }
    }

    /// Writes so many blocks of a namespace with a seed, through a placement identifier.
    pub fn write(
        &mut self,
        alloc: Global,
        nsid: u32,
        slba: u32,
        count: u32,
        seed: u32,
        pid: u16,
    ) -> Result<(), AllocError> {
        let line = format!(in alloc; "write {nsid} {slba} {count} {seed} pid {pid}\n")?;
        self.text.push_str(&line)?;
        Ok(())
    }

    /// A line as it is.
    pub fn line(&mut self, line: &str) -> Result<(), AllocError> {
        self.text.push_str(line)?;
        self.text.push('\n')?;
        Ok(())
    }

    /// Reads so many blocks of a namespace.
    pub fn read(
        &mut self,
        alloc: Global,
        nsid: u32,
        slba: u32,
        count: u32,
    ) -> Result<(), AllocError> {
        let line = format!(in alloc; "read {nsid} {slba} {count}\n")?;
        self.text.push_str(&line)?;
        Ok(())
    }

    /// Deallocates so many blocks of a namespace.
    pub fn dealloc(
        &mut self,
        alloc: Global,
        nsid: u32,
        slba: u32,
        count: u32,
    ) -> Result<(), AllocError> {
        let line = format!(in alloc; "dealloc {nsid} {slba} {count}\n")?;
        self.text.push_str(&line)?;
        Ok(())
    }
}
