//! What became of each job and of each launch, by a Text.

/// Whether the line of a job goes on, after the job's names, with one of the ends that are said.
fn is_as_said(line: &str, ends: &str) -> bool {
    let end = line.splitn(3, ' ').nth(2).unwrap_or("");
    ends.split(" | ").any(|said| end.starts_with(said))
}

/// Whether a Text has a line for each job, which is as the line of the job says.
pub fn are_as_said(text: &[u8], jobs: &[u8]) -> bool {
    let (Ok(text), Ok(jobs)) = (std::str::from_utf8(text), std::str::from_utf8(jobs)) else {
        return false;
    };
    let fates = text.split("%%\n").last().unwrap_or("");
    fates.lines().count() == jobs.lines().count()
        && fates
            .lines()
            .zip(jobs.lines())
            .all(|(line, ends)| is_as_said(line, ends))
}

/// Whether the entries `done` of a Text end as is said, one after another.
pub fn reports_are_as_said(text: &[u8], reports: &[u8]) -> bool {
    let (Ok(text), Ok(reports)) = (std::str::from_utf8(text), std::str::from_utf8(reports)) else {
        return false;
    };
    let mut told = reports.lines();
    for line in text.lines() {
        if line.starts_with("done ") {
            let Some(end) = told.next() else {
                return false;
            };
            if !line.ends_with(end) {
                return false;
            }
        }
    }
    told.next().is_none()
}
