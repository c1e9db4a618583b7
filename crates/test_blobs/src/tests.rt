mod blobs;
mod books;
mod histories;
mod ranges;
mod runs;
