use tiled_files::FileFault;

/// Where a store says why it does not load or store a file.
pub trait FaultReport {
    /// The file of this name, which has these bytes, is not loaded; or no file is stored for this text.
    fn refused(&self, name: &str, bytes: &[u8], fault: FileFault);

    /// What is set aside of the file of this name, or put back of its text, is longer than 67,108,864 bytes.
    fn too_long(&self, name: &str);

    /// A text in the layout of the file of this name would have had another tree, so a plainer one is stored.
    fn not_laid_out(&self, name: &str);
}
