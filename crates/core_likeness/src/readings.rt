//! What the entries of a history tell, read without the marks that they force: parcels, who is shut, the collections
//! that were opened, the trackers that wait, and on which buffers handles were opened.
pub mod clients;
pub mod openings;
pub mod roots;
pub mod tracking;
