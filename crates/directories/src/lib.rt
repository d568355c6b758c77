// The directories that tell which SMF serves a slice and DNN.
#![tactic(auto)]

mod directory;
mod limit;
mod list_directory;
mod no_smf;
mod served_set;
mod service_line;
mod takes_one;
mod turning_directory;

pub use directory::Directory;
pub use list_directory::ListDirectory;
pub use no_smf::NoSmf;
pub use service_line::ServiceLine;
pub use takes_one::TakesOne;
pub use turning_directory::TurningDirectory;
