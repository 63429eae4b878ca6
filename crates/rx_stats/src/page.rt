use crate::browser_page::put_page;
use crate::crowd::crowd_look::CrowdLook;
use crate::lines::put_lines;
use crate::metrics::put_metrics;
use crate::stats::put_stats;
use rx_config::SubjectConfig;
use rx_heap::{Heap, Memory};
use rx_http::{Epoch, LookForm};
use rx_hub::SubjectLook;

/// What was seen of the connections and of each subject, in this form; of one whose thread is gone there is nothing to see.
///
/// # Errors
///
/// `Memory`: there was none for it.
pub fn page_of(
    heap: &Heap,
    form: LookForm,
    epoch: &Epoch,
    crowd: CrowdLook,
    subjects: &[SubjectConfig],
    looks: &[Option<SubjectLook>],
) -> Result<Vec<u8, Heap>, Memory> {
    let mut page = Vec::new(heap.clone()?);
    match form {
        LookForm::Stats => put_stats(&mut page, epoch, crowd, subjects, looks)?,
        LookForm::Metrics => put_metrics(&mut page, crowd, subjects, looks)?,
        LookForm::Lines => put_lines(&mut page, epoch, crowd, subjects, looks)?,
        LookForm::Page => put_page(&mut page, epoch, crowd, subjects, looks)?,
    }
    Ok(page)
}
