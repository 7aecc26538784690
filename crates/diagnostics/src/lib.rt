// The diagnosis of a selected inverse, after `SelectedInverseDiagnostics` of uncertainty.rs.
#![tactic(auto)]

ghost use Rattle.std.specs.Prelude.{◌≡◌, ◌≤◌};
ghost use Rattle.diagnostics.specs.Diagnosis.{complete_of, max_count, ratio_of, diagnosis};

// Whether the closed set is within the limit.
#[derive(Clone, Copy)]
pub enum SelectedInverseStatus {
    Complete,
    ClosureTooLarge,
}

#[derive(Clone, Copy)]
pub struct SelectedInverseDiagnostics {
    pub requested_pairs: usize,
    pub closure_pairs: usize,
    pub factor_pairs: usize,
    pub closure_over_factor: f64,
    pub closure_limit: usize,
    pub status: SelectedInverseStatus,
}

impl SelectedInverseDiagnostics {
    pub fn is_complete(self) -> bool
        ensures { result ≡ complete_of self.status }
    {
        let status = self.status;
        match status {
            SelectedInverseStatus::Complete => true,
            SelectedInverseStatus::ClosureTooLarge => false,
        }
    }
}

// closure_pairs / max(factor_pairs, 1).
fn closure_over_factor(closure_pairs: usize, factor_pairs: usize) -> f64
    requires { (closure_pairs ≤ max_count) × (factor_pairs ≤ max_count) }
    ensures { result ≡ ratio_of closure_pairs factor_pairs }
{
    if factor_pairs < 1 {
        return closure_pairs as f64 / 1usize as f64;
    }
    closure_pairs as f64 / factor_pairs as f64
}

// The record of these counts, with their ratio.
pub fn selected_inverse_diagnostics(
    requested_pairs: usize,
    closure_pairs: usize,
    factor_pairs: usize,
    closure_limit: usize,
    status: SelectedInverseStatus,
) -> SelectedInverseDiagnostics
    requires { (closure_pairs ≤ max_count) × (factor_pairs ≤ max_count) }
    ensures { result ≡ diagnosis requested_pairs closure_pairs factor_pairs closure_limit status }
{
    let ratio = closure_over_factor(closure_pairs, factor_pairs);
    SelectedInverseDiagnostics {
        requested_pairs: requested_pairs,
        closure_pairs: closure_pairs,
        factor_pairs: factor_pairs,
        closure_over_factor: ratio,
        closure_limit: closure_limit,
        status: status,
    }
}
